ghost use Rattle.std.specs.Prelude.{◌≡◌, ◌<◌, ◌^◌, length, IfOk};
ghost use Rattle.omega_game_values.specs.Solution.{ArePlacesGiven, choices_of};
ghost use Rattle.omega_game_values.specs.Winning.{choice_at};

use crate::player::Player;
use crate::strategy::Strategy;
use omega_text::Seq;
use std::alloc::{AllocError, Global};

/// For each place of a game its winner, and for each player a strategy.
#[derive(Debug, PartialEq, Eq)]
pub struct Solution {
    /// The winners by place.
    pub winners: Seq<Player>,
    /// The choices of player 0.
    pub zero: Strategy,
    /// The choices of player 1.
    pub one: Strategy,
}

impl Drop for Solution {
    // By hand, so that a solution is dropped by a call at each exit of a function that owns it, not field by field.
    fn drop(self) {
        let Solution {
            winners: _,
            zero: _,
            one: _,
        } = self;
    }
}

impl Solution {
    /// Returns the choices of a player.
    pub fn strategy(&self, player: Player) -> &Strategy
        ensures { result.now.choice ≡ choices_of self.now player }
    {
        match player {
            Player::Zero => &self.zero,
            Player::One => &self.one,
        }
    }

    /// Returns the choice of a player at a place.
    pub fn choice(&self, player: Player, place: u32) -> Option<u32>
        requires { place < length (choices_of self.now player) }
        ensures { result ≡ choice_at (choices_of self.now player) place }
    {
        self.strategy(player).choice.as_slice()[place as usize]
    }

    /// Returns the places that are given to the player, in rising order. Linear in the places. Fails if a request for
    /// memory is refused.
    pub fn places_given(&self, alloc: Global, player: Player) -> Result<Vec<u32>, AllocError>
        requires { length self.now.winners < 2 ^ 32 }
        ensures given { IfOk result (λ places. ArePlacesGiven self.now player places.items) }
    {
        let winners = self.winners.as_slice();
        let mut places = Vec::new(alloc);
        for place in 0..winners.len() {
            if winners[place].is_same(player) {
                places.push(place as u32)?;
            }
        }
        Ok(places)
    }
}
