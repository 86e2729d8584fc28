/// A command that asks formulas of the text of the input, one after the other.
#[derive(Clone, Copy, Debug)]
pub enum Formulas {
    /// Says whether the automaton of the input accepts exactly the words that satisfy the formula.
    Equal {
        /// Whether a `no` is explained.
        explain: bool,
    },
    /// Says whether each word that the automaton of the input accepts satisfies the formula.
    Satisfies {
        /// Whether a `no` is explained.
        explain: bool,
    },
    /// Says the same of each automaton of the stream that the input is, in turn.
    SatisfiesStream {
        /// Whether a `no` is explained.
        explain: bool,
        /// How many automata the stream is to have at least, or else the exit is that of a `no`.
        at_least: u32,
    },
    /// Says whether each word that the input admits, which is the text of a word, satisfies the formula.
    SatisfiesWord {
        /// Whether a `no` is explained.
        explain: bool,
    },
}
