/// A command that reads a stream of automata in pieces, and answers for each automaton, one after the other.
#[derive(Clone, Copy, Debug)]
pub enum Stream {
    /// Describes the automaton: its size and its acceptance.
    Show,
    /// The same as a value of JSON.
    ShowJson,
    /// Says that the text of the stream is accepted.
    Check {
        /// How many automata the stream is to have at least, or else the exit is that of a `no`.
        at_least: u32,
    },
    /// Writes the automaton in the one form that it has.
    Canon,
    /// Says whether it accepts nothing, and shows a lasso if it accepts something. Decided by lifting.
    Empty {
        /// Whether the word that a lasso accepts is written too.
        word: bool,
        /// Whether the states of a lasso's run are written too, with their names.
        names: bool,
        /// Whether the exit says if one of the automata accepts nothing.
        status: bool,
        /// How many automata the stream is to have at least, or else the exit is that of a `no`.
        at_least: u32,
    },
    /// The same, decided by a search.
    EmptySearch {
        /// Whether the word that a lasso accepts is written too.
        word: bool,
        /// Whether the states of a lasso's run are written too, with their names.
        names: bool,
        /// Whether the exit says if one of the automata accepts nothing.
        status: bool,
        /// How many automata the stream is to have at least, or else the exit is that of a `no`.
        at_least: u32,
    },
    /// Writes an automaton that accepts the words that it does not.
    Complement {
        /// How many automata the stream is to have at least, or else the exit is that of a `no`.
        at_least: u32,
    },
    /// Writes the same automaton without its useless states.
    Trim {
        /// How many automata the stream is to have at least, or else the exit is that of a `no`.
        at_least: u32,
    },
}
