//! Places that a player has won before its run ends. They are looked for without a proof, and what was found is judged.
ghost use Rattle.std.specs.Prelude.{◌≡◌, ◌<◌, ℕ, length, IsSome, IsTrue};
ghost use Rattle.omega_game_values.specs.Game.{HasEdge, IsGame};
ghost use Rattle.omega_lift_laws.specs.Allowance.{measure_at};
ghost use Rattle.omega_solve.specs.private.solving.Successor.{IsTableOf};
ghost use Rattle.omega_solve.specs.private.turning.Handing.{AreWon, Rests, RestsOn, StandsAlone};

use crate::successor::owns;
use omega_lift_laws::{allowances_exist, measures_are_ordered, won_places_are_in_regions};
use omega_lift_schedules::Schedule;
use omega_measure::{Game, MeasureTable, Player};

/// Marks in `lost` the places whose measures may still rise to top: those at top, those at which a lift is due, and
/// those that rest on such places. A lift is due at no place that is not pending, so that nothing is compared there at
/// first. Nothing is proved of the marks, which are judged. `stack` has room for each place.
pub(crate) fn mark_lost<T: MeasureTable, S: Schedule>(
    game: &Game,
    player: Player,
    table: &T,
    schedule: &S,
    lost: &mut [bool],
    stack: &mut [u32],
)
    requires game { IsGame game.now }
    requires measures { length (T.content table.now).measures ≡ length game.now }
    requires flags { length (S.waiting schedule.now).flags ≡ length game.now }
    requires entries { length lost.old ≡ length game.now }
    ensures { length lost.new ≡ length lost.old }
{
    lost.fill(false);
    let mut count = 0;
    for place in 0..game.len() {
        let unsettled = table.is_top(place as u32)
            || schedule.is_pending(place as u32) && !rests(game, player, table, lost, place as u32);
        count = push_if(unsettled, lost, stack, count, place as u32);
    }
    // Each place is on the stack at most once.
    for _ in 0..game.len() {
        if count == 0 {
            return;
        }
        count -= 1;
        count = spread(game, player, table, lost, stack, count);
    }
}

/// Takes the place at `count` off the stack, and marks its predecessors that no longer rest on kept places. Returns how
/// many places are on the stack then.
fn spread<T: MeasureTable>(
    game: &Game,
    player: Player,
    table: &T,
    lost: &mut [bool],
    stack: &mut [u32],
    mut count: usize,
) -> usize
    requires game { IsGame game.now }
    requires measures { length (T.content table.now).measures ≡ length game.now }
    requires entries { length lost.old ≡ length game.now }
    ensures { length lost.new ≡ length lost.old }
{
    if count >= stack.len() || stack[count] as usize >= game.len() {
        return count;
    }
    for predecessor in game.predecessors(stack[count]) {
        let place = *predecessor;
        let unsettled = !lost[place as usize] && !rests(game, player, table, lost, place);
        count = push_if(unsettled, lost, stack, count, place);
    }
    count
}

/// Marks `place` and puts it on the stack if it is `unsettled`. Returns how many places are on the stack then.
fn push_if(unsettled: bool, lost: &mut [bool], stack: &mut [u32], count: usize, place: u32) -> usize
    requires { place < length lost.old }
    ensures { length lost.new ≡ length lost.old }
{
    if !unsettled {
        return count;
    }
    lost[place as usize] = true;
    if count >= stack.len() {
        return count;
    }
    stack[count] = place;
    count + 1
}

/// Whether each place that is not in `lost` is seen to be in the region of `player`: it is below top, and no lift is
/// due there in a table with these measures and top everywhere else.
pub(crate) fn are_won<T: MeasureTable>(
    game: &Game,
    player: Player,
    table: &T,
    lost: &[bool],
) -> bool
    requires game { IsGame game.now }
    requires table { IsTableOf game.now player (T.content table.now) }
    requires entries { length lost.now ≡ length game.now }
    ensures { IsTrue result → AreWon game.now player lost.now }
{
    measures_are_ordered();
    allowances_exist();
    won_places_are_in_regions();
    stand_alone(game, player, table, lost)
}

/// Whether each place that is not in `lost` is below top and rests on such places.
fn stand_alone<T: MeasureTable>(game: &Game, player: Player, table: &T, lost: &[bool]) -> bool
    requires game { IsGame game.now }
    requires measures { length (T.content table.now).measures ≡ length game.now }
    requires entries { length lost.now ≡ length game.now }
    ensures { IsTrue result → StandsAlone game.now player (T.content table.now) lost.now }
{
    for place in 0..game.len() {
        if !lost[place] && !is_held(game, player, table, lost, place as u32) {
            return false;
        }
    }
    true
}

/// Whether `place` is below top and rests on places that are not in `lost`.
fn is_held<T: MeasureTable>(
    game: &Game,
    player: Player,
    table: &T,
    lost: &[bool],
    place: u32,
) -> bool
    requires inside { place < length game.now }
    requires game { IsGame game.now }
    requires measures { length (T.content table.now).measures ≡ length game.now }
    requires entries { length lost.now ≡ length game.now }
    ensures below_top { IsTrue result → IsSome (measure_at (T.content table.now).measures place) }
    ensures rests { IsTrue result → Rests game.now player (T.content table.now) lost.now place }
{
    !table.is_top(place) && rests(game, player, table, lost, place)
}

/// Whether `place` rests on places that are not in `lost`: on one of its successors if `player` owns it, else on each.
fn rests<T: MeasureTable>(game: &Game, player: Player, table: &T, lost: &[bool], place: u32) -> bool
    requires inside { place < length game.now }
    requires game { IsGame game.now }
    requires measures { length (T.content table.now).measures ≡ length game.now }
    requires entries { length lost.now ≡ length game.now }
    ensures { IsTrue result → Rests game.now player (T.content table.now) lost.now place }
{
    if owns(game, player, place) {
        rests_on_one(game, table, lost, place)
    } else {
        rests_on_all(game, table, lost, place)
    }
}

/// Whether `place` rests on one of its successors.
fn rests_on_one<T: MeasureTable>(game: &Game, table: &T, lost: &[bool], place: u32) -> bool
    requires inside { place < length game.now }
    requires game { IsGame game.now }
    requires measures { length (T.content table.now).measures ≡ length game.now }
    requires entries { length lost.now ≡ length game.now }
    ensures { IsTrue result
        → (w : ℕ) × HasEdge game.now place w × RestsOn (T.content table.now) lost.now place w }
{
    for successor in game.successors(place) {
        if !lost[*successor as usize] && !table.due(place, *successor) {
            return true;
        }
    }
    false
}

/// Whether `place` rests on each of its successors.
fn rests_on_all<T: MeasureTable>(game: &Game, table: &T, lost: &[bool], place: u32) -> bool
    requires inside { place < length game.now }
    requires game { IsGame game.now }
    requires measures { length (T.content table.now).measures ≡ length game.now }
    requires entries { length lost.now ≡ length game.now }
    ensures { IsTrue result → (w : ℕ) → HasEdge game.now place w
        → RestsOn (T.content table.now) lost.now place w }
{
    for successor in game.successors(place) {
        if lost[*successor as usize] || table.due(place, *successor) {
            return false;
        }
    }
    true
}
