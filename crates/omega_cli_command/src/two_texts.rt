/// A command about two texts, that of the input and another: that of a file, or for `Accepts` and `AcceptsSome` the
/// text of a word.
#[derive(Clone, Copy, Debug)]
pub enum TwoTexts {
    /// Checks the solution that the input has, of the game of the file or of the part of it that one node reaches.
    Verify {
        /// The identifier of the node whose part is meant.
        from: Option<u32>,
        /// Whether a `no` is explained.
        explain: bool,
    },
    /// The same, and a `no` is explained with the names of nodes.
    VerifyNamed {
        /// The identifier of the node whose part is meant.
        from: Option<u32>,
    },
    /// Checks the winners in the solution that the input has; its choices are passed over.
    VerifyWinners {
        /// The identifier of the node whose part is meant.
        from: Option<u32>,
        /// Whether a `no` is explained.
        explain: bool,
    },
    /// Checks whether the lasso that the input has is an accepting one of the automaton of the file.
    VerifyLasso {
        /// Whether a `no` is explained.
        explain: bool,
    },
    /// Checks whether the automaton that the input has is a controller for the specification of the file.
    VerifyController {
        /// Whether a `no` is explained.
        explain: bool,
    },
    /// Checks whether the automaton that the input has is a counter-strategy for the specification of the file.
    VerifyCounterStrategy {
        /// Whether a `no` is explained.
        explain: bool,
    },
    /// Writes an automaton that accepts the words that both accept, the one of the input and the one of the file.
    Meet {
        /// Whether useless states are left out.
        trim: bool,
    },
    /// Writes an automaton that accepts the words that one of the two accepts, that of the input or that of the file.
    Join,
    /// Says whether the automaton of the input accepts each word that the other text admits.
    Accepts {
        /// Whether a `no` is explained.
        explain: bool,
    },
    /// Says whether the automaton of the input accepts some word that the other text admits.
    AcceptsSome {
        /// Whether a `yes` is explained.
        explain: bool,
    },
    /// Says whether the automaton of the file accepts each word that the one of the input accepts.
    Contained {
        /// Whether a `no` is explained.
        explain: bool,
    },
    /// Says for each automaton of the stream that the input has whether that of the file accepts each of its words.
    ContainedStream {
        /// Whether a `no` is explained.
        explain: bool,
        /// How many automata the stream is to have at least, or else the exit is that of a `no`.
        at_least: u32,
    },
    /// Says whether the automata of the file and of the input accept the same words.
    Equal {
        /// Whether a `no` is explained.
        explain: bool,
    },
    /// Draws the game that the input has with the solution of it in the file; whole, or the part that one node reaches.
    DrawSolution {
        /// The identifier of the node whose part is drawn.
        from: Option<u32>,
        /// How many steps from that node the part goes, if that is said.
        depth: Option<u32>,
        /// Whether the drawing says what its colours mean.
        legend: bool,
    },
    /// Draws the game that the input has with the walk in it that the file has; whole, or the part that one node
    /// reaches.
    DrawWalk {
        /// The identifier of the node whose part is drawn.
        from: Option<u32>,
        /// How many steps from that node the part goes, if that is said.
        depth: Option<u32>,
        /// Whether the drawing says what its colours mean.
        legend: bool,
    },
}
