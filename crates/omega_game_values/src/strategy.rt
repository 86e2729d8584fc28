ghost use Rattle.std.specs.Prelude.{◌≡◌, ◌↔◌, ◌<◌, length, IsTrue};
ghost use Rattle.omega_game_values.specs.Game.{HasEdge, owner_at};
ghost use Rattle.omega_game_values.specs.Winning.{IsStrategy};

use crate::forward_game::ForwardGame;
use crate::player::Player;
use omega_text::Seq;

/// A strategy: for each place the place that the player moves to, or none.
#[derive(Debug, PartialEq, Eq)]
pub struct Strategy {
    /// At each place the place to move to, or none: all listed successors are left possible there.
    pub choice: Seq<Option<u32>>,
}

impl Drop for Strategy {
    fn drop(self) {
        let Strategy { choice: _ } = self;
    }
}

impl Strategy {
    /// Whether there is an entry for each place, and each choice is a listed successor of a node that the player owns.
    /// Takes time in the nodes and the successors of those with a choice, and no memory.
    pub fn fits(&self, game: &ForwardGame, player: Player) -> bool
        ensures { IsTrue result ↔ IsStrategy game.now player self.now.choice }
    {
        let choices = self.choice.as_slice();
        if choices.len() != game.len() {
            return false;
        }
        for place in 0..choices.len() {
            if let Some(target) = choices[place]
                && !is_own_move(game, player, place as u32, target)
            {
                return false;
            }
        }
        true
    }
}

/// Whether a node is the player's, and lists the target as a successor.
fn is_own_move(game: &ForwardGame, player: Player, place: u32, target: u32) -> bool
    requires { place < length game.now }
    ensures { IsTrue result ↔ ((owner_at game.now place ≡ player) × HasEdge game.now place target) }
{
    game.owner(place).is_same(player) && game.successors(place).contains(&target)
}
