//! A proof that a strategy wins, as an order of the places: each edge leads forward, or back to a place whose priority
//! does not lose and is the greatest on the way. A closed walk passes its greatest priority by such a step back.
ghost use Rattle.std.specs.Prelude.{◌≡◌, ℕ, ◌<◌, ◌≤◌, ◌+◌, ◌^◌, length, vec_len, IfOk, IsTrue, slice_index};
ghost use Rattle.omega_game_reaching.specs.Reaching.{LeadsInside};
ghost use Rattle.omega_game.specs.private.checking.Following.{AreClosed};
ghost use Rattle.omega_game.specs.private.checking.Ordering.{AreEnds, AreEndsAfter, IsInOrder, StandsInOrder};
ghost use Rattle.omega_game.specs.private.checking.Recurring.{NoneRecurs};

use omega_game_reaching::edges_left;
use omega_game_values::{ForwardGame, Player};
use std::alloc::{AllocError, Global};

/// Whether an order of the places shows that no marked place of a losing priority recurs. Linear in nodes and edges.
pub(crate) fn shows_none(
    alloc: Global,
    game: &ForwardGame,
    player: Player,
    choices: &[Option<u32>],
    marks: &[bool],
    order: &[u32],
) -> Result<bool, AllocError>
    requires count { length marks.now ≡ length game.now }
    requires choices { LeadsInside game.now choices.now }
    requires closed { AreClosed game.now choices.now marks.now }
    ensures none { IfOk result
        (λ answer. IsTrue answer → NoneRecurs game.now player choices.now marks.now) }
{
    if order.len() >= u32::MAX as usize {
        return Ok(false);
    }
    let numbers = numbers_in(alloc, game.len(), order)?;
    let ranks = ranks_along(alloc, game, order)?;
    let ends = ends_of(alloc, ranks.as_slice())?;
    let shown = all_stand(
        game,
        player,
        choices,
        marks,
        numbers.as_slice(),
        ranks.as_slice(),
        ends.as_slice(),
    );
    Ok(shown)
}

/// Returns the position of each place in the order, 0 if it has none.
pub(crate) fn numbers_in(alloc: Global, count: usize, order: &[u32]) -> Result<Vec<u32>, AllocError>
    requires { length order.now < 2 ^ 32 }
    ensures { IfOk result (λ numbers. vec_len numbers ≡ count) }
{
    let mut numbers = vec![in alloc; 0u32; count]?;
    for number in 0..order.len() {
        let index = order[number] as usize;
        if index < count {
            numbers[index] = number as u32;
        }
    }
    Ok(numbers)
}

/// Returns the priorities of the places in the order.
pub(crate) fn ranks_along(
    alloc: Global,
    game: &ForwardGame,
    order: &[u32],
) -> Result<Vec<u32>, AllocError>
    ensures { IfOk result (λ ranks. vec_len ranks ≡ length order.now) }
{
    let count = game.len();
    let mut ranks = Vec::with_capacity(alloc, order.len())?;
    for place in order {
        let rank = if (*place as usize) < count {
            game.priority(*place)
        } else {
            0
        };
        ranks.push(rank)?;
    }
    Ok(ranks)
}

/// Returns for each position the first one after it with a greater rank, or the length.
pub(crate) fn ends_of(alloc: Global, ranks: &[u32]) -> Result<Vec<u32>, AllocError>
    requires few { length ranks.now + 1 < 2 ^ 32 }
    ensures count { IfOk result (λ ends. vec_len ends ≡ length ranks.now) }
    ensures ends { IfOk result (λ ends. AreEnds ranks.now ends.items) }
{
    let mut ends = vec![in alloc; 0u32; ranks.len()]?;
    let mut index = ranks.len();
    while index > 0 {
        index -= 1;
        let end = end_after(ranks, ends.as_slice(), index as u32);
        ends[index] = end;
    }
    Ok(ends)
}

/// Returns the first position after `index` with a greater rank, found by the ends of the positions after it.
fn end_after(ranks: &[u32], ends: &[u32], index: u32) -> u32
    requires few { length ranks.now + 1 < 2 ^ 32 }
    requires index { index < length ranks.now }
    requires count { length ends.now ≡ length ranks.now }
    requires onward { (i : ℕ) → index < i → i < length ranks.now → i < slice_index ends.now i }
    requires ends { AreEndsAfter index ranks.now ends.now }
    ensures following { index < result }
    ensures ranks { (k : ℕ) → index ≤ k → k < result
        → slice_index ranks.now k ≤ slice_index ranks.now index }
{
    let rank = ranks[index as usize];
    let mut end = index + 1;
    while (end as usize) < ranks.len() && ranks[end as usize] <= rank {
        end = ends[end as usize];
    }
    end
}

/// Whether each marked place is in the order as `stands` requires.
fn all_stand(
    game: &ForwardGame,
    player: Player,
    choices: &[Option<u32>],
    marks: &[bool],
    numbers: &[u32],
    ranks: &[u32],
    ends: &[u32],
) -> bool
    requires count { length marks.now ≡ length game.now }
    requires choices { LeadsInside game.now choices.now }
    requires closed { AreClosed game.now choices.now marks.now }
    requires numbers { length numbers.now ≡ length game.now }
    requires even { length ends.now ≡ length ranks.now }
    requires ends { AreEnds ranks.now ends.now }
    ensures { IsTrue result → NoneRecurs game.now player choices.now marks.now }
{
    for place in 0..game.len() as u32 {
        if marks[place as usize] && !stands(game, player, choices, numbers, ranks, ends, place) {
            return false;
        }
    }
    true
}

/// Whether a place is in the order at a position of its priority, and each of its edges is in order.
fn stands(
    game: &ForwardGame,
    player: Player,
    choices: &[Option<u32>],
    numbers: &[u32],
    ranks: &[u32],
    ends: &[u32],
    place: u32,
) -> bool
    requires place { place < length game.now }
    requires choices { LeadsInside game.now choices.now }
    requires numbers { length numbers.now ≡ length game.now }
    requires ends { length ends.now ≡ length ranks.now }
    ensures { IsTrue result
        → StandsInOrder game.now player choices.now numbers.now ranks.now ends.now place }
{
    let number = numbers[place as usize] as usize;
    if number >= ranks.len() || ranks[number] != game.priority(place) {
        return false;
    }
    for next in edges_left(game, choices, place) {
        if !is_in_order(game, player, numbers, ends, place, *next) {
            return false;
        }
    }
    true
}

/// Whether an edge leads forward, or back to a place whose priority does not lose and is the greatest on the way.
pub(crate) fn is_in_order(
    game: &ForwardGame,
    player: Player,
    numbers: &[u32],
    ends: &[u32],
    place: u32,
    next: u32,
) -> bool
    requires place { place < length game.now }
    requires next { next < length game.now }
    requires numbers { length numbers.now ≡ length game.now }
    requires ends { slice_index numbers.now place < length ends.now }
    ensures { IsTrue result → IsInOrder game.now player numbers.now ends.now place next }
{
    let number = numbers[place as usize];
    let back = numbers[next as usize];
    if number < back {
        return true;
    }
    !player.loses(game.priority(next)) && number < ends[back as usize]
}
