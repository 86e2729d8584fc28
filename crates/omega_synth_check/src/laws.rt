//! Laws of judgements. No code that runs.

ghost use Rattle.omega_synth_check.specs.Laws.{ControllersRealizeSpecifications, JudgementsAreExact};
ghost use Rattle.omega_synth_check.specs.Laws.{KeptPartsAreJudgedRight, KeptPartsControl};

/// States that an automaton is judged to be a controller exactly if it is one for the specification, if each test of
/// numbers recurs or ceases, as it does by the excluded middle.
pub fn judgements_are_exact()
    ensures { JudgementsAreExact }
{}

/// States that the edges of a controller in the sense of `omega_synth_controllers`, as an automaton of their own, are a
/// controller for the automaton that they are edges of, with the same premise.
pub fn kept_parts_control()
    ensures { KeptPartsControl }
{}

/// States that such an automaton is judged to be a controller.
pub fn kept_parts_are_judged_right()
    ensures { KeptPartsAreJudgedRight }
{}

/// States that by the answers of a controller for a specification the system realizes it: the specification accepts
/// each word, whatever letters the environment gives.
pub fn controllers_realize_specifications()
    ensures { ControllersRealizeSpecifications }
{}
