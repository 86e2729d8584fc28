//! Shortest ways to a place that is reached.
ghost use Rattle.std.specs.Prelude.{◌≡◌, ◌<◌, length, All, Contains, IfOk, slice_index};
ghost use Rattle.omega_game_reaching.specs.Reaching.{LeadsInside, IsReachedFrom};
ghost use Rattle.omega_game.specs.private.refuting.Ways.{IsWay, LeadBack, LeadsTo};

use crate::refuting::breadth::met_from;
use omega_game_values::ForwardGame;
use std::alloc::{AllocError, Global};

/// Returns the places before the target on a shortest way to it from one of the places, through priorities at most
/// `most`. Linear in nodes and edges.
pub(crate) fn way_to(
    alloc: Global,
    game: &ForwardGame,
    choices: &[Option<u32>],
    most: u32,
    places: &[u32],
    target: u32,
) -> Result<Vec<u32>, AllocError>
    requires inside { All (λ place. place < length game.now) places.now }
    requires choices { LeadsInside game.now choices.now }
    requires reached { IsReachedFrom game.now choices.now most places.now target }
    ensures way { IfOk result
        (λ before. LeadsTo game.now choices.now most places.now target before.items) }
{
    let met = met_from(alloc, game, choices, most, places)?;
    let index = index_of(met.places.as_slice(), target);
    let before = way_back(alloc, met.places.as_slice(), met.origins.as_slice(), index)?;
    Ok(before)
}

/// Returns an index of a place that was met.
fn index_of(met: &[u32], target: u32) -> usize
    requires { Contains met.now target }
    ensures within { result < length met.now }
    ensures found { slice_index met.now result ≡ target }
{
    let mut index = 0;
    while met[index] != target {
        index += 1;
    }
    index
}

/// Returns the places before the one at an index, on the way on which it was met.
fn way_back(
    alloc: Global,
    met: &[u32],
    origins: &[Option<usize>],
    index: usize,
) -> Result<Vec<u32>, AllocError>
    requires within { index < length met.now }
    requires even { length origins.now ≡ length met.now }
    requires back { LeadBack origins.now }
    ensures way { IfOk result (λ before. IsWay met.now origins.now index before.items) }
{
    let mut before = Vec::new(alloc);
    let mut at = index;
    while let Some(origin) = origins[at] {
        before.push(met[origin])?;
        at = origin;
    }
    before.reverse();
    Ok(before)
}
