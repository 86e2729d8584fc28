ghost use Rattle.std.specs.Prelude.{◌≡◌, ◌≢◌, ◌↔◌, ◌<◌, ℕ, length, IsTrue, MatchOption};
ghost use Rattle.std.specs.declared.cmp.Ordering.TheVariants.{Equal};
ghost use Rattle.omega_game_values.specs.Game.{IsGame, owner_at, priorities, priority_at, successors_at};
ghost use Rattle.omega_lift_laws.specs.Run.{IsDue};
ghost use Rattle.omega_solve.specs.private.solving.Successor.{IsChoiceAt, IsDueTowards};
ghost use Rattle.omega_solve.specs.private.solving.Successor.{IsFirstBest, IsLeastExceeded};
ghost use Rattle.omega_solve.specs.private.solving.Successor.{IsTableOf, KeepsToSome, order_from};

use omega_lift_laws::{
    allowances_are_monotone, allowances_are_strict, allowances_exist, measures_are_ordered,
};
use omega_measure::{Game, MeasureTable, Player};
use std::cmp::Ordering;

/// Returns the successor towards which `place` is to be lifted, or none if no lift is due. It is the one of least
/// allowance if `player` owns the place, else the one of greatest allowance.
#[inline(always)]
pub(crate) fn due_towards<T: MeasureTable>(
    game: &Game,
    player: Player,
    table: &T,
    place: u32,
) -> Option<u32>
    requires inside { place < length game.now }
    requires game { IsGame game.now }
    requires table { IsTableOf game.now player (T.content table.now) }
    ensures { let measures = (T.content table.now).measures in
        MatchOption result (¬ IsDue game.now player measures place)
        (IsDueTowards game.now player measures place) }
{
    measures_are_ordered();
    allowances_exist();
    allowances_are_monotone();
    if owns(game, player, place) {
        return least_exceeded(game, table, place);
    }
    let greatest = best_successor(game, table, place, Ordering::Greater);
    if table.due(place, greatest) {
        Some(greatest)
    } else {
        None
    }
}

/// Returns the choice of an answer at `place`, at which no lift is due: the first successor of least allowance, if
/// `player` owns the place and its measure is below top.
pub(crate) fn chosen_successor<T: MeasureTable>(
    game: &Game,
    player: Player,
    table: &T,
    place: u32,
) -> Option<u32>
    requires inside { place < length game.now }
    requires game { IsGame game.now }
    requires table { IsTableOf game.now player (T.content table.now) }
    requires finished { ¬ IsDue game.now player (T.content table.now).measures place }
    ensures { IsChoiceAt game.now player (T.content table.now).measures place result }
{
    measures_are_ordered();
    allowances_exist();
    allowances_are_monotone();
    allowances_are_strict();
    if !owns(game, player, place) || table.is_top(place) {
        return None;
    }
    Some(best_successor(game, table, place, Ordering::Less))
}

/// Whether `player` owns `place`.
pub(crate) fn owns(game: &Game, player: Player, place: u32) -> bool
    requires { place < length game.now }
    ensures { IsTrue result ↔ (owner_at game.now place ≡ player) }
{
    game.owner(place) == player
}

/// Returns the first successor of `place` of least measure, on the entries for priorities at least that of the place.
/// Returns none if the allowance towards some successor does not exceed the measure of the place, and looks at no
/// successor after it. No lift is tested towards a successor whose measure is not less than that of another.
// Inlined, so that the place is looked up once for all its successors.
#[inline(always)]
fn least_exceeded<T: MeasureTable>(game: &Game, table: &T, place: u32) -> Option<u32>
    requires inside { place < length game.now }
    requires game { IsGame game.now }
    requires entries { length (T.content table.now).measures ≡ length game.now }
    requires priorities { (T.content table.now).priorities ≡ priorities game.now }
    ensures { MatchOption result
        (KeepsToSome game.now (T.content table.now) place)
        (IsLeastExceeded game.now (T.content table.now) place) }
{
    measures_are_ordered();
    let successors = game.successors(place);
    let mut least = successors[0];
    if !table.due(place, least) {
        return None;
    }
    for index in 1..successors.len() {
        let successor = successors[index];
        if table.compare_for(place, successor, least) == Ordering::Less {
            if !table.due(place, successor) {
                return None;
            }
            least = successor;
        }
    }
    Some(least)
}

/// Returns the first successor of `place` such that no other's measure compares to its own as `wanted`, on the entries
/// for priorities at least that of the place.
// Inlined, so that the wanted order is known at each comparison of words.
#[inline(always)]
fn best_successor<T: MeasureTable>(game: &Game, table: &T, place: u32, wanted: Ordering) -> u32
    requires inside { place < length game.now }
    requires game { IsGame game.now }
    requires entries { length (T.content table.now).measures ≡ length game.now }
    requires priorities { (T.content table.now).priorities ≡ priorities game.now }
    requires wanted { wanted ≢ Equal }
    ensures { let successors = successors_at game.now place in
        IsFirstBest (order_from (T.content table.now) (priority_at game.now place))
        wanted successors (length successors) result }
{
    measures_are_ordered();
    let successors = game.successors(place);
    let mut best = successors[0];
    for index in 1..successors.len() {
        let successor = successors[index];
        if table.compare_for(place, successor, best) == wanted {
            best = successor;
        }
    }
    best
}
