use omega_game_values::Player;

/// A place between two tokens of a game text, by what was read last, with the parts of a node that has begun.
#[derive(Clone, Copy)]
pub(crate) enum GameStage {
    /// Nothing.
    Start,
    /// The word `parity`.
    Word,
    /// The number of the header.
    Number {
        header: u32,
    },
    /// The header's semicolon.
    Headed,
    /// A node's semicolon.
    Ended,
    /// An identifier.
    Identifier {
        id: u32,
    },
    /// A priority.
    Priority {
        id: u32,
        priority: u32,
    },
    /// An owner.
    Owner {
        id: u32,
        priority: u32,
        owner: Player,
    },
    /// A successor.
    Listed,
    /// A comma.
    Comma,
    /// A name.
    Named,
}
