//! Laws of faults and meanings, whatever the code does. Each function does nothing and states one law.
ghost use Rattle.omega_hoa_automaton.specs.Laws.{FaultsAreLeast, MeaningsAreAutomata, MeaningsAreOne};
ghost use Rattle.omega_hoa_automaton.specs.Laws.{MeaningsAreThere, MeaningsHaveNoFault, NoFaultIsNone};

/// States that the fault of an automaton that is written applies, and none with a lesser number does.
pub fn faults_are_least()
    ensures { FaultsAreLeast }
{}

/// States that no fault applies if an automaton that is written has none.
pub fn no_fault_is_none()
    ensures { NoFaultIsNone }
{}

/// States that an automaton that is written means at most one automaton.
pub fn meanings_are_one()
    ensures { MeaningsAreOne }
{}

/// States that an automaton that is written has no fault if it means an automaton.
pub fn meanings_have_no_fault()
    ensures { MeaningsHaveNoFault }
{}

/// States that an automaton that is written means an automaton if it has no fault.
pub fn meanings_are_there()
    ensures { MeaningsAreThere }
{}

/// States that the meaning of an automaton that is written keeps what each automaton does: numbers are below their
/// counts, each state is defined at most once, and the limits hold.
pub fn meanings_are_automata()
    ensures { MeaningsAreAutomata }
{}
