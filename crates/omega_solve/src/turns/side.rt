ghost use Rattle.std.specs.Prelude.{◌≡◌, ◌-◌, ◌^◌, ◌<◌, length, IsTrue};
ghost use Rattle.omega_lift_laws.specs.Run.{IsDue};
ghost use Rattle.omega_game_values.specs.Game.{IsGame};
ghost use Rattle.omega_lift_schedules.specs.Schedule.{IsIdle, IsPending};
ghost use Rattle.omega_solve.specs.private.solving.Successor.{IsDueTowards};
ghost use Rattle.omega_solve.specs.private.turning.Side.{IsSide};

use super::MOST_TAKES;
use crate::repeating::lift_again;
use crate::successor::due_towards;
use crate::wake::wake_predecessors;
use omega_lift_laws::{allowances_are_unique, runs_keep_tables};
use omega_lift_schedules::Schedule;
use omega_measure::{Game, MeasureTable, Player};

/// One player's side of solving in turns: the measures, and the places to be looked at.
#[derive(Drop)]
pub(crate) struct Side<T: MeasureTable, S: Schedule> {
    pub(crate) table: T,
    pub(crate) schedule: S,
    /// The number of lifts, and of places given up.
    pub(crate) raises: u64,
}

/// Whether no place is pending.
pub(crate) fn is_idle<S: Schedule>(schedule: &S) -> bool
    ensures { IsTrue result → IsIdle (S.waiting schedule.now) }
{
    match schedule.look() {
        Some(_) => false,
        None => true,
    }
}

/// Lifts pending places until no place is pending or `limit` takes were made.
pub(crate) fn lift_until<T: MeasureTable, S: Schedule>(
    game: &Game,
    player: Player,
    side: &mut Side<T, S>,
    limit: u64,
)
    requires game { IsGame game.now }
    requires limit { limit < 2 ^ 64 - 1 }
    requires side { IsSide game.now player (T.content side.old.table)
        (S.waiting side.old.schedule) side.old.raises }
    ensures { IsSide game.now player (T.content side.new.table)
        (S.waiting side.new.schedule) side.new.raises }
{
    while side.schedule.takes() < limit {
        match side.schedule.look() {
            Some(place) => attempt(game, player, side, place, limit),
            None => return,
        }
    }
}

/// Takes out `place`, after lifting it if a lift is due there.
fn attempt<T: MeasureTable, S: Schedule>(
    game: &Game,
    player: Player,
    side: &mut Side<T, S>,
    place: u32,
    limit: u64,
)
    requires game { IsGame game.now }
    requires limit { limit < 2 ^ 64 - 1 }
    requires side { IsSide game.now player (T.content side.old.table)
        (S.waiting side.old.schedule) side.old.raises }
    requires pending { IsPending (S.waiting side.old.schedule) place }
    requires counted { (S.waiting side.old.schedule).taken < limit }
    ensures side { IsSide game.now player (T.content side.new.table)
        (S.waiting side.new.schedule) side.new.raises }
    ensures taken { (S.waiting side.old.schedule).taken < (S.waiting side.new.schedule).taken }
{
    match due_towards(game, player, &side.table, place) {
        None => side.schedule.take(place),
        Some(towards) => lift(game, player, side, place, towards, limit),
    }
}

/// Takes out `place`, at which no lift is due, if it is pending.
pub(crate) fn take_out<T: MeasureTable, S: Schedule>(
    _game: &Game,
    _player: Player,
    side: &mut Side<T, S>,
    place: u32,
)
    requires inside { place < length _game.now }
    requires side { IsSide _game.now _player (T.content side.old.table)
        (S.waiting side.old.schedule) side.old.raises }
    requires settled { ¬ IsDue _game.now _player (T.content side.old.table).measures place }
    ensures side { IsSide _game.now _player (T.content side.new.table)
        (S.waiting side.new.schedule) side.new.raises }
    ensures table { T.content side.new.table ≡ T.content side.old.table }
{
    if !side.schedule.is_pending(place) || side.schedule.takes() >= MOST_TAKES {
        return;
    }
    side.schedule.leave_out(place);
}

/// Lifts `place` to its allowance towards `towards` and takes it out, lifts it again if it leads to itself, and then
/// makes its predecessors pending.
fn lift<T: MeasureTable, S: Schedule>(
    game: &Game,
    player: Player,
    side: &mut Side<T, S>,
    place: u32,
    towards: u32,
    limit: u64,
)
    requires game { IsGame game.now }
    requires limit { limit < 2 ^ 64 - 1 }
    requires side { IsSide game.now player (T.content side.old.table)
        (S.waiting side.old.schedule) side.old.raises }
    requires pending { IsPending (S.waiting side.old.schedule) place }
    requires due { IsDueTowards game.now player (T.content side.old.table).measures place towards }
    requires counted { (S.waiting side.old.schedule).taken < limit }
    ensures side { IsSide game.now player (T.content side.new.table)
        (S.waiting side.new.schedule) side.new.raises }
    ensures taken { (S.waiting side.old.schedule).taken < (S.waiting side.new.schedule).taken }
{
    allowances_are_unique();
    runs_keep_tables();
    side.table.raise(place, towards);
    side.schedule.take(place);
    let most = limit - side.schedule.takes();
    let more = lift_again(
        game,
        player,
        &mut side.table,
        &mut side.schedule,
        place,
        towards,
        most,
    );
    let made = more.saturating_add(1);
    let raises = side.raises.saturating_add(made);
    side.raises = raises;
    wake_predecessors(game, &side.table, &mut side.schedule, place);
}
