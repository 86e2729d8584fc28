//! A breadth-first search for the nodes that a place reaches.
ghost use Rattle.std.specs.Prelude.{◌≡◌, ◌≢◌, ◌+◌, ◌<◌, ◌↔◌, [], ℕ, All, Contains, IfOk};
ghost use Rattle.std.specs.Prelude.{IsTrue, OnOk, Some, length, option_map, vec_len};
ghost use Rattle.omega_game_dot.specs.Extent.{IsNear, is_drawn};
ghost use Rattle.omega_game_dot.specs.private.Entering.{AreEntered, IsAfter};

use omega_game_values::ForwardGame;
use std::alloc::{AllocError, Global};

/// Flags the places that `place` reaches, itself included, with a `depth` by at most that number of edges.
///
/// This is a breadth-first search, so that each edge of a reached node is followed once.
pub(crate) fn places_near(
    alloc: Global,
    game: &ForwardGame,
    place: u32,
    depth: Option<u32>,
) -> Result<Vec<bool>, AllocError>
    requires { place < length game.now }
    ensures entries { IfOk result (λ drawn. vec_len drawn ≡ length game.now) }
    ensures exactly { IfOk result
        (λ drawn. (v : ℕ) → IsTrue (is_drawn drawn.items v) ↔ IsNear game.now depth place v) }
{
    game.keeps_limits();
    let mut drawn = vec![in alloc; false; game.len()]?;
    let mut front = Vec::new(alloc);
    enter(&[place], &mut drawn, &mut front)?;
    let mut left = depth;
    while !front.is_empty() && left != Some(0) {
        front = enter_after(alloc, game, &front, &mut drawn)?;
        left = one_less(left);
    }
    Ok(drawn)
}

/// Returns how many edges may be followed after one more, if `left` may be now.
fn one_less(left: Option<u32>) -> Option<u32>
    requires { left ≢ Some 0 }
    ensures { option_map (λ rest. rest + 1) result ≡ left }
{
    match left {
        Some(count) => Some(count - 1),
        None => None,
    }
}

/// Flags the places to which an edge leads from one of `front`, and returns those that were not flagged before.
fn enter_after(
    alloc: Global,
    game: &ForwardGame,
    front: &[u32],
    drawn: &mut Vec<bool>,
) -> Result<Vec<u32>, AllocError>
    requires front { All (λ place. place < length game.now) front.now }
    requires entries { vec_len drawn.old ≡ length game.now }
    ensures entered { IfOk result
        (λ next. AreEntered (IsAfter game.now front.now) drawn.old.items [] drawn.new.items next.items) }
{
    game.keeps_limits();
    let mut next = Vec::new(alloc);
    for place in front {
        enter(game.successors(*place), drawn, &mut next)?;
    }
    Ok(next)
}

/// Flags `places`, and appends those that were not flagged before to `next`.
fn enter(places: &[u32], drawn: &mut Vec<bool>, next: &mut Vec<u32>) -> Result<(), AllocError>
    requires { All (λ place. place < vec_len drawn.old) places.now }
    ensures { OnOk result
        (AreEntered (Contains places.now) drawn.old.items next.old.items drawn.new.items next.new.items) }
{
    for place in places {
        let index = *place as usize;
        if !drawn[index] {
            drawn[index] = true;
            next.push(*place)?;
        }
    }
    Ok(())
}
