ghost use Rattle.std.specs.Prelude.{◌≡◌, length};
ghost use Rattle.omega_game_values.specs.Game.{IsGame, IsWithinLimits};
ghost use Rattle.omega_lift_laws.specs.Answer.{AreChoices, won_in};
ghost use Rattle.omega_lift_laws.specs.Run.{IsStable};
ghost use Rattle.omega_solve.specs.private.solving.Successor.{IsTableOf};

use crate::successor::chosen_successor;
use omega_measure::{Game, MeasureTable, Player};

/// The answer of a finished solver, by place.
#[derive(Clone, Copy, Debug)]
pub struct AnswerRef<'a> {
    /// Whether the player wins from the place.
    pub won: &'a [bool],
    /// The place that the player moves to, for each won place that the player owns; none for all others.
    pub choice: &'a [Option<u32>],
}

/// Fills the buffers of an answer from `table`: the places below top are won, and `choice` has the choices there.
pub(crate) fn fill_answer<T: MeasureTable>(
    game: &Game,
    player: Player,
    table: &T,
    won: &mut [bool],
    choice: &mut [Option<u32>],
)
    requires game { IsGame game.now }
    requires limits { IsWithinLimits game.now }
    requires table { IsTableOf game.now player (T.content table.now) }
    requires finished { IsStable game.now player (T.content table.now).measures }
    requires won { length won.old ≡ length game.now }
    requires choice { length choice.old ≡ length game.now }
    ensures won { won.new ≡ won_in (T.content table.now).measures }
    ensures choice { AreChoices game.now player (T.content table.now).measures choice.new }
{
    for place in 0..game.len() {
        won[place] = !table.is_top(place as u32);
        choice[place] = chosen_successor(game, player, table, place as u32);
    }
}
