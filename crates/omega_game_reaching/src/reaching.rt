//! A search along the edges that choices leave possible.
ghost use Rattle.std.specs.Prelude.{◌≡◌, ◌<◌, length, vec_len, All, IfOk, OnOk};
ghost use Rattle.omega_game_reaching.specs.Reaching.{left_at, LeadsInside, AreReached};
ghost use Rattle.omega_game_reaching.specs.private.Entering.{AreEntered};

use omega_game_values::ForwardGame;
use std::alloc::{AllocError, Global};
use std::slice;

/// Returns the places to which the choices leave an edge from a place possible: the chosen one. If none is chosen, or
/// if the choices end before the place, these are all listed successors.
pub fn edges_left<'a>(game: &'a ForwardGame, choices: &'a [Option<u32>], place: u32) -> &'a [u32]
    requires inside { place < length game.now }
    requires choices { LeadsInside game.now choices.now }
    ensures left { result.now ≡ left_at game.now choices.now place }
    ensures inside { All (λ left. left < length game.now) result.now }
{
    game.keeps_limits();
    match choices.get(place as usize) {
        Some(Some(chosen)) => slice::from_ref(chosen),
        _ => game.successors(place),
    }
}

/// Marks the places that are reached from the given `places` through priorities at most `most`, by a search in depth.
/// Linear in nodes and edges. Fails if a request for memory is refused.
pub fn reached_from(
    alloc: Global,
    game: &ForwardGame,
    choices: &[Option<u32>],
    most: u32,
    places: &[u32],
) -> Result<Vec<bool>, AllocError>
    requires inside { All (λ place. place < length game.now) places.now }
    requires choices { LeadsInside game.now choices.now }
    ensures count { IfOk result (λ marks. vec_len marks ≡ length game.now) }
    ensures reached { IfOk result
        (λ marks. AreReached game.now choices.now most places.now marks.items) }
{
    let mut marks = vec![in alloc; false; game.len()]?;
    let mut stack = Vec::new(alloc);
    enter(game, most, places, &mut marks, &mut stack)?;
    while let Some(place) = stack.pop() {
        enter(
            game,
            most,
            edges_left(game, choices, place),
            &mut marks,
            &mut stack,
        )?;
    }
    Ok(marks)
}

/// Marks the places of priority at most `most`, and stacks those that were not marked.
fn enter(
    game: &ForwardGame,
    most: u32,
    places: &[u32],
    marks: &mut Vec<bool>,
    stack: &mut Vec<u32>,
) -> Result<(), AllocError>
    requires inside { All (λ place. place < length game.now) places.now }
    requires count { vec_len marks.old ≡ length game.now }
    ensures entered { OnOk result (AreEntered game.now most places.now marks.old.items
        stack.old.items marks.new.items stack.new.items) }
{
    for place in places {
        let index = *place as usize;
        if game.priority(*place) <= most && !marks[index] {
            marks[index] = true;
            stack.push(*place)?;
        }
    }
    Ok(())
}
