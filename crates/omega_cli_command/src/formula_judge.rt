/// A command that checks what the text of the input has for a formula, whose propositions are parted between the system
/// and the environment.
#[derive(Clone, Copy, Debug)]
pub enum FormulaJudge {
    /// Checks whether the automaton that the input has is a controller for the formula.
    Controller {
        /// Whether a `no` is explained.
        explain: bool,
    },
    /// Checks whether the automaton that the input has is a counter-strategy for the formula.
    CounterStrategy {
        /// Whether a `no` is explained.
        explain: bool,
    },
}
