use omega_game_values::Player;

/// A place between two tokens of a solution text, by what was read last, with the parts of a line that has begun.
#[derive(Clone, Copy)]
pub(crate) enum SolutionStage {
    /// Nothing.
    Start,
    /// The word `paritysol`.
    Word,
    /// The number of the header.
    Number {
        greatest: u32,
    },
    /// The semicolon of the header or of a line.
    Ended,
    /// An identifier.
    Identifier {
        id: u32,
    },
    /// A winner.
    Winner {
        id: u32,
        winner: Player,
    },
    /// A successor.
    Chosen {
        id: u32,
        winner: Player,
        successor: u32,
    },
}
