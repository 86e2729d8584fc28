use omega_ltl_satisfaction::Example;
use omega_synth_check::Lack;

/// Whether an automaton is a controller for a formula.
#[derive(Debug, Drop, PartialEq, Eq)]
pub enum FormulaJudgement {
    /// It is one.
    Controls,
    /// It has no start.
    NoStart,
    /// A state that it reaches does not answer a letter of the environment.
    Unanswered(Lack),
    /// It accepts a word that does not satisfy the formula.
    NotSatisfied(Example),
}
