use crate::formula_answers::FormulaAnswers;

/// What formulas are answered for the automata of a stream.
#[derive(Debug, Drop)]
pub struct StreamAnswers {
    /// The answers for each item of the stream, one after the other.
    pub answers: FormulaAnswers,
    /// The number of automata among the items. An aborted segment is none.
    pub automata: usize,
}
