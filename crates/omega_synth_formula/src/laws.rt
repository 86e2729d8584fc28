//! Laws of judgements for formulas. No code that runs.

ghost use Rattle.omega_synth_formula.specs.CounterLaws.{CounterStrategiesBeatFormulas};
ghost use Rattle.omega_synth_formula.specs.CounterLaws.{FormulaControllersExcludeCounterStrategies};
ghost use Rattle.omega_synth_formula.specs.CounterLaws.{FormulaCounterJudgementsAreExact};
ghost use Rattle.omega_synth_formula.specs.Laws.{ControllersRealizeFormulas, FormulaJudgementsAreExact};

/// States that an automaton is judged to be a controller exactly if it is one for the formula, by the limited principle
/// of omniscience.
pub fn formula_judgements_are_exact()
    ensures { FormulaJudgementsAreExact }
{}

/// States that by the answers of a controller for a formula the system realizes it: each word satisfies the formula,
/// whatever letters the environment gives.
pub fn controllers_realize_formulas()
    ensures { ControllersRealizeFormulas }
{}

/// States that an automaton is judged to be a counter-strategy exactly if it is one for the formula, by the limited
/// principle of omniscience.
pub fn formula_counter_judgements_are_exact()
    ensures { FormulaCounterJudgementsAreExact }
{}

/// States that by a counter-strategy for a formula the environment has a strategy that beats it: whatever the system
/// answers, the word does not satisfy the formula.
pub fn counter_strategies_beat_formulas()
    ensures { CounterStrategiesBeatFormulas }
{}

/// States that no formula has both a controller and a counter-strategy, for the same outputs.
pub fn formula_controllers_exclude_counter_strategies()
    ensures { FormulaControllersExcludeCounterStrategies }
{}
