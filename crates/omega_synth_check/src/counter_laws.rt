//! Laws of judgements on counter-strategies. No code that runs.

ghost use Rattle.omega_synth_check.specs.CounterLaws.{CounterJudgementsAreExact, CounterStrategiesForBeat};

/// States that an automaton is judged to be a counter-strategy exactly if it is one for the specification.
pub fn counter_judgements_are_exact()
    ensures { CounterJudgementsAreExact }
{}

/// States that by a counter-strategy for a deterministic specification the environment has a strategy that beats it:
/// whatever the system answers, the specification does not accept the word.
pub fn counter_strategies_for_beat()
    ensures { CounterStrategiesForBeat }
{}
