use omega_ltl_satisfaction::Example;
use omega_text::Seq;

/// Whether an automaton is a counter-strategy for a formula.
#[derive(Debug, Drop, PartialEq, Eq)]
pub enum FormulaCounterJudgement {
    /// It is one.
    Beats,
    /// It has no start.
    NoStart,
    /// It reaches a state in which the environment has no letter such that it goes on at each answer.
    NoLetter(LetterlessState),
    /// It accepts a word that satisfies the formula.
    Satisfying(Example),
}

/// A state that a counter-strategy reaches. Whatever letter the environment gives there, the system has an answer at
/// which the counter-strategy does not go on.
#[derive(Debug, Drop, PartialEq, Eq)]
pub struct LetterlessState {
    /// The number of the state.
    pub state: u32,
    /// The numbers of edges that lead from a start to the state, in order.
    pub stem: Seq<u32>,
}
