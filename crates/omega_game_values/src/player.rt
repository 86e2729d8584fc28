ghost use Rattle.std.specs.Prelude.{◌≡◌, ◌≤◌, ◌↔◌, IsTrue, MatchOption};

/// A player of a parity game. The even priorities are won by player 0, the odd ones by player 1.
#[derive(Clone, Copy, Debug, PartialEq, Eq)]
pub enum Player {
    /// Player 0, for whom odd priorities lose.
    Zero,
    /// Player 1, for whom even priorities lose.
    One,
}

impl Player {
    ghost use Rattle.omega_game_values.specs.Player.{loses, opponent_of, player_number};

    /// Returns the player's number in texts, 0 or 1.
    pub fn number(self) -> u32
        ensures { result ≡ player_number self }
    {
        match self {
            Player::Zero => 0,
            Player::One => 1,
        }
    }

    /// Returns the player with a number, or `None` from 2 on.
    pub fn of_number(number: u32) -> Option<Player>
        ensures { MatchOption result (2 ≤ number) (λ player. player_number player ≡ number) }
    {
        match number {
            0 => Some(Player::Zero),
            1 => Some(Player::One),
            _ => None,
        }
    }

    /// Returns the player against whom this one plays.
    pub fn opponent(self) -> Player
        ensures { result ≡ opponent_of self }
    {
        match self {
            Player::Zero => Player::One,
            Player::One => Player::Zero,
        }
    }

    /// Whether the two are one player.
    pub fn is_same(self, other: Player) -> bool
        ensures { IsTrue result ↔ (self ≡ other) }
    {
        self == other
    }

    /// Whether a priority loses for the player.
    pub fn loses(self, priority: u32) -> bool
        ensures { result ≡ loses self priority }
    {
        match self {
            Player::Zero => priority % 2 == 1,
            Player::One => priority % 2 == 0,
        }
    }
}
