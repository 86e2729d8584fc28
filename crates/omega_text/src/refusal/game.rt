ghost use Rattle.std.specs.Prelude.{◌≡◌};

use thiserror::Error;

/// Why specifications make no game.
#[derive(Clone, Copy, Debug, PartialEq, Eq, Error)]
pub enum GameFault {
    /// 10: an identifier is specified twice.
    #[error("an identifier is specified twice")]
    DuplicateNode,
    /// 11: a successor has no specification.
    #[error("a successor has no specification")]
    UndefinedSuccessor,
    /// 12: the header's number is below the greatest identifier.
    #[error("the header's number is below the greatest identifier")]
    HeaderTooSmall,
    /// 13: over 1,048,576 nodes.
    #[error("over 1048576 nodes")]
    TooManyNodes,
    /// 14: over 8,388,608 listed successors.
    #[error("over 8388608 listed successors")]
    TooManyEdges,
}

impl GameFault {
    ghost use Rattle.omega_text.specs.Refusal.{game_name, game_number};

    /// Returns the fault's number, which no other refusal has.
    pub(crate) fn number(self) -> u32
        ensures { result ≡ game_number self }
    {
        match self {
            GameFault::DuplicateNode => 10,
            GameFault::UndefinedSuccessor => 11,
            GameFault::HeaderTooSmall => 12,
            GameFault::TooManyNodes => 13,
            GameFault::TooManyEdges => 14,
        }
    }

    /// Returns the fault's name, as a program prints it.
    pub(crate) fn name(self) -> &'static str
        ensures { result.now ≡ game_name self }
    {
        match self {
            GameFault::DuplicateNode => "DuplicateNode",
            GameFault::UndefinedSuccessor => "UndefinedSuccessor",
            GameFault::HeaderTooSmall => "HeaderTooSmall",
            GameFault::TooManyNodes => "TooManyNodes",
            GameFault::TooManyEdges => "TooManyEdges",
        }
    }
}
