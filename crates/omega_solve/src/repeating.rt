ghost use Rattle.std.specs.Prelude.{◌≡◌, ◌+◌, ◌-◌, ◌^◌, ◌<◌, ◌≤◌, length, IsTrue, MatchBool};
ghost use Rattle.omega_game_values.specs.Game.{HasEdge, IsGame};
ghost use Rattle.omega_solve.specs.private.solving.Repeating.{LiftsAgain};
ghost use Rattle.omega_solve.specs.private.solving.Successor.{IsTableOf};

use crate::successor::{due_towards, owns};
use omega_lift_laws::{allowances_are_unique, runs_keep_tables};
use omega_lift_schedules::Schedule;
use omega_measure::{Game, MeasureTable, Player};

/// Lifts `place` again while it leads to itself, a lift is due there and the schedule takes it again, at most `most`
/// times. Returns how often. Wakes nothing: predecessors are woken once, after the last of these lifts.
///
/// The place was lifted towards `towards`. If `player` owns it, no lift is due there again unless that is the place
/// itself.
// Inlined, so that a place which does not lead to itself costs no call.
#[inline(always)]
pub(crate) fn lift_again<T: MeasureTable, S: Schedule>(
    game: &Game,
    player: Player,
    table: &mut T,
    schedule: &mut S,
    place: u32,
    towards: u32,
    most: u64,
) -> u64
    requires inside { place < length game.now }
    requires game { IsGame game.now }
    requires table { IsTableOf game.now player (T.content table.old) }
    requires counted { (S.waiting schedule.old).taken + most ≤ 2 ^ 64 - 1 }
    ensures within { result ≤ most }
    ensures lifted { LiftsAgain game.now player place result (T.content table.old)
        (T.content table.new) (S.waiting schedule.old) (S.waiting schedule.new) }
{
    if !may_repeat(game, player, place, towards) {
        return 0;
    }
    lift_while_due(game, player, table, schedule, place, most)
}

/// Lifts `place`, which leads to itself, again while a lift is due there and the schedule takes it again, at most
/// `most` times. Returns how often.
// A call, since few places lead to themselves.
#[inline(never)]
fn lift_while_due<T: MeasureTable, S: Schedule>(
    game: &Game,
    player: Player,
    table: &mut T,
    schedule: &mut S,
    place: u32,
    most: u64,
) -> u64
    requires inside { place < length game.now }
    requires game { IsGame game.now }
    requires itself { HasEdge game.now place place }
    requires table { IsTableOf game.now player (T.content table.old) }
    requires counted { (S.waiting schedule.old).taken + most ≤ 2 ^ 64 - 1 }
    ensures within { result ≤ most }
    ensures lifted { LiftsAgain game.now player place result (T.content table.old)
        (T.content table.new) (S.waiting schedule.old) (S.waiting schedule.new) }
{
    let mut made = 0u64;
    while made < most && lift_once_more(game, player, table, schedule, place) {
        made += 1;
    }
    made
}

/// Lifts `place`, which leads to itself, once more if a lift is due there and the schedule takes it again. Returns
/// whether it did.
fn lift_once_more<T: MeasureTable, S: Schedule>(
    game: &Game,
    player: Player,
    table: &mut T,
    schedule: &mut S,
    place: u32,
) -> bool
    requires inside { place < length game.now }
    requires game { IsGame game.now }
    requires itself { HasEdge game.now place place }
    requires table { IsTableOf game.now player (T.content table.old) }
    requires counted { (S.waiting schedule.old).taken < 2 ^ 64 - 1 }
    ensures { MatchBool result (LiftsAgain game.now player place 1 (T.content table.old)
        (T.content table.new) (S.waiting schedule.old) (S.waiting schedule.new))
        (LiftsAgain game.now player place 0 (T.content table.old) (T.content table.new)
        (S.waiting schedule.old) (S.waiting schedule.new)) }
{
    allowances_are_unique();
    runs_keep_tables();
    match due_towards(game, player, table, place) {
        None => false,
        Some(towards) => {
            let again = schedule.take_again();
            if again {
                table.raise(place, towards);
            }
            again
        }
    }
}

/// Whether a lift may be due again at `place`, which leads to itself and was lifted towards `towards`.
#[inline(always)]
fn may_repeat(game: &Game, player: Player, place: u32, towards: u32) -> bool
    requires { place < length game.now }
    ensures { IsTrue result → HasEdge game.now place place }
{
    if towards != place && owns(game, player, place) {
        return false;
    }
    leads_to_itself(game, place)
}

/// Whether `place` is one of its own successors.
#[inline(always)]
fn leads_to_itself(game: &Game, place: u32) -> bool
    requires { place < length game.now }
    ensures { IsTrue result → HasEdge game.now place place }
{
    for successor in game.successors(place) {
        if *successor == place {
            return true;
        }
    }
    false
}
