ghost use Rattle.std.specs.Prelude.{◌≡◌, ◌<◌, length, IsSome};
ghost use Rattle.omega_game_values.specs.Game.{IsGame};
ghost use Rattle.omega_game_values.specs.Player.{opponent_of};
ghost use Rattle.omega_game_values.specs.Winning.{InRegion};
ghost use Rattle.omega_lift_laws.specs.Allowance.{measure_at};
ghost use Rattle.omega_solve.specs.private.turning.Handing.{AreWon};
ghost use Rattle.omega_solve.specs.private.turning.Side.{IsSide};

use super::side::{Side, take_out};
use crate::wake::wake_predecessors;
use omega_game_region_laws::regions_are_apart;
use omega_lift_laws::won_places_are_in_regions;
use omega_lift_schedules::Schedule;
use omega_measure::{Game, MeasureTable, Player};

/// Whether some place that is not in `lost` is below top in `table`.
pub(crate) fn has_news<T: MeasureTable>(game: &Game, table: &T, lost: &[bool]) -> bool
    requires measures { length (T.content table.now).measures ≡ length game.now }
    requires entries { length lost.now ≡ length game.now }
{
    for place in 0..game.len() {
        if !lost[place] && !table.is_top(place as u32) {
            return true;
        }
    }
    false
}

/// Hands on to `side`, the side of `player`, the places that are not in `lost` and that the opponent wins: their
/// measures become top. Returns whether some measure was below top.
pub(crate) fn hand_on<T: MeasureTable, S: Schedule>(
    game: &Game,
    player: Player,
    side: &mut Side<T, S>,
    lost: &[bool],
) -> bool
    requires game { IsGame game.now }
    requires side { IsSide game.now player (T.content side.old.table)
        (S.waiting side.old.schedule) side.old.raises }
    requires entries { length lost.now ≡ length game.now }
    requires won { AreWon game.now (opponent_of player) lost.now }
    ensures { IsSide game.now player (T.content side.new.table)
        (S.waiting side.new.schedule) side.new.raises }
{
    let mut some = false;
    for place in 0..game.len() {
        if !lost[place] && !side.table.is_top(place as u32) {
            give_up(game, player, side, place as u32);
            some = true;
        }
    }
    some
}

/// Gives up `place`, which the opponent of `player` wins: its measure becomes top, its predecessors pending, and the
/// place is no longer pending.
fn give_up<T: MeasureTable, S: Schedule>(
    game: &Game,
    player: Player,
    side: &mut Side<T, S>,
    place: u32,
)
    requires game { IsGame game.now }
    requires side { IsSide game.now player (T.content side.old.table)
        (S.waiting side.old.schedule) side.old.raises }
    requires lost { InRegion game.now (opponent_of player) place }
    requires below_top { IsSome (measure_at (T.content side.old.table).measures place) }
    ensures { IsSide game.now player (T.content side.new.table)
        (S.waiting side.new.schedule) side.new.raises }
{
    won_places_are_in_regions();
    regions_are_apart();
    side.table.set_top(place);
    let raises = side.raises.saturating_add(1);
    side.raises = raises;
    wake_predecessors(game, &side.table, &mut side.schedule, place);
    take_out(game, player, side, place);
}
