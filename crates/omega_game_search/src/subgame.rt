use crate::chains::Chain;
use omega_game_values::Player;

/// The places that each player wins.
#[derive(Clone, Copy)]
pub(crate) struct Won {
    pub zero: Chain,
    pub one: Chain,
}

impl Won {
    /// No place.
    pub(crate) const NOTHING: Won = Won {
        zero: Chain::EMPTY,
        one: Chain::EMPTY,
    };

    /// Returns the places that `player` wins.
    pub(crate) fn of(self, player: Player) -> Chain {
        match player {
            Player::Zero => self.zero,
            Player::One => self.one,
        }
    }

    /// Returns a copy in which `player` wins `chain` instead.
    pub(crate) fn with(self, player: Player, chain: Chain) -> Won {
        match player {
            Player::Zero => Won {
                zero: chain,
                one: self.one,
            },
            Player::One => Won {
                zero: self.zero,
                one: chain,
            },
        }
    }
}

/// A part of the game that is being solved: the places in play of a range of the list of places.
#[derive(Clone, Copy)]
pub(crate) struct Subgame {
    /// The range, in which priorities rise, and the length of the list when the subgame began.
    pub start: u32,
    pub end: u32,
    pub kept: u32,
    /// The number of its places that are not won yet.
    pub size: u32,
    /// The player of its top nodes, the position on the trail at which these begin, and their number.
    pub player: Player,
    pub first: u32,
    pub top_nodes: u32,
    /// The places that were won so far.
    pub won: Won,
}

impl Subgame {
    /// Makes the subgame of the places in play of the range from `start` to `end`.
    pub(crate) fn new(start: u32, end: u32, kept: u32, size: u32) -> Subgame {
        Subgame {
            start,
            end,
            kept,
            size,
            player: Player::Zero,
            first: 0,
            top_nodes: 0,
            won: Won::NOTHING,
        }
    }
}
