//! Laws of controllers and of counter-strategies. A controller realizes, a counter-strategy refutes, and no automaton
//! has both.

ghost use Rattle.omega_synth_controllers.specs.Laws.{BeatingExcludesRealizing, ControllersAnswer};
ghost use Rattle.omega_synth_controllers.specs.Laws.{ControllersExcludeCounterStrategies, ControllersRealize};
ghost use Rattle.omega_synth_controllers.specs.Laws.{CounterStrategiesBeat, CounterStrategiesRefute};
ghost use Rattle.omega_synth_controllers.specs.Laws.{KeptRunsAreAccepting};
ghost use Rattle.omega_synth_controllers.specs.Laws.{RealizingExcludesCounterStrategies};

/// States that no automaton has both a controller and a counter-strategy, whichever edges the two keep. It need not be
/// deterministic.
pub fn controllers_exclude_counter_strategies()
    ensures { ControllersExcludeCounterStrategies }
{}

/// States that from a controller there is a strategy of the system by whose answers each word has a run of the
/// controller's edges, whatever letters the environment gives.
pub fn controllers_answer()
    ensures { ControllersAnswer }
{}

/// States that each run of a controller's edges is accepting. Whether the marks of a run satisfy a formula cannot be
/// decided here, so it is a premise that each test passes infinitely often or at last no more.
pub fn kept_runs_are_accepting()
    ensures { KeptRunsAreAccepting }
{}

/// States that, with the same premise, some strategy of the system realizes an automaton that has a controller.
/// Whatever letters the environment gives, the word of them and of the answers is accepted, by a run of the
/// controller's edges.
pub fn controllers_realize()
    ensures { ControllersRealize }
{}

/// States that a deterministic automaton with a counter-strategy is refuted: against each strategy of the system the
/// environment can give letters such that the word of them and of the answers is not accepted.
pub fn counter_strategies_refute()
    ensures { CounterStrategiesRefute }
{}

/// States that no strategy of the system realizes a deterministic automaton that has a counter-strategy.
pub fn realizing_excludes_counter_strategies()
    ensures { RealizingExcludesCounterStrategies }
{}

/// States that the environment has one strategy that beats a deterministic automaton with a counter-strategy. It knows
/// the system's letters of earlier rounds alone, and no word of what it gives and of answers of the system is accepted.
pub fn counter_strategies_beat()
    ensures { CounterStrategiesBeat }
{}

/// States that no automaton has both a strategy of the environment that beats it and one of the system that realizes
/// it.
pub fn beating_excludes_realizing()
    ensures { BeatingExcludesRealizing }
{}
