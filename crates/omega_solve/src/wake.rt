ghost use Rattle.std.specs.Prelude.{◌≡◌, ◌<◌, length};
ghost use Rattle.omega_game_values.specs.Game.{predecessors_of};
ghost use Rattle.omega_solve.specs.private.solving.Wake.{Wakes};

use omega_lift_schedules::Schedule;
use omega_measure::{Game, MeasureTable};

/// Makes the predecessors of `place` pending. A predecessor at top is left out: no lift is ever due there.
#[inline(always)]
pub(crate) fn wake_predecessors<T: MeasureTable, S: Schedule>(
    game: &Game,
    table: &T,
    schedule: &mut S,
    place: u32,
)
    requires inside { place < length game.now }
    requires measures { length (T.content table.now).measures ≡ length game.now }
    requires flags { length (S.waiting schedule.old).flags ≡ length game.now }
    ensures { let predecessors = predecessors_of game.now place in
        Wakes (T.content table.now).measures predecessors (length predecessors)
        (S.waiting schedule.old) (S.waiting schedule.new) }
{
    for predecessor in game.predecessors(place) {
        if !table.is_top(*predecessor) {
            schedule.add(*predecessor);
        }
    }
}
