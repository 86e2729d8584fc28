use omega_game_values::Player;

/// A place between two tokens of a lenient text, by what was read last, with the parts of a node that has begun.
#[derive(Clone, Copy)]
pub(crate) enum LenientStage {
    /// Statements before the nodes, or nothing: whether a header was read, and whether a first node was.
    Opening {
        headed: bool,
        started: bool,
    },
    /// The word `parity`.
    HeaderWord {
        started: bool,
    },
    /// The number of a header.
    HeaderNumber {
        started: bool,
    },
    /// The word `start`.
    StartWord {
        headed: bool,
    },
    /// The number of a first node.
    StartNumber {
        headed: bool,
    },
    /// A node's semicolon.
    Ended,
    /// An identifier.
    Identifier {
        id: u32,
    },
    /// A priority.
    Priority {
        id: u32,
        priority: u32,
    },
    /// An owner. A text that ends here ends with a dead end.
    Owner {
        id: u32,
        priority: u32,
        owner: Player,
    },
    /// A successor.
    Listed,
    /// A comma.
    Comma,
    /// A name.
    Named,
}
