//! A search in breadth: each place that is reached is met on a shortest way.
ghost use Rattle.std.specs.Prelude.{◌≡◌, ◌<◌, length, vec_len, All, IfOk, OnOk};
ghost use Rattle.omega_game_reaching.specs.Reaching.{LeadsInside};
ghost use Rattle.omega_game.specs.private.refuting.Ways.{AreMet, IsTree, MeetsAll};

use omega_game_reaching::edges_left;
use omega_game_values::ForwardGame;
use std::alloc::{AllocError, Global};

/// The places that a search met, in its order, and for each the index of the one from which it was met. Those that the
/// search began with have none.
#[derive(Drop)]
pub(crate) struct MetPlaces {
    pub places: Vec<u32>,
    pub origins: Vec<Option<usize>>,
}

/// Meets the places that are reached from the given ones through priorities at most `most`. Linear in nodes and edges.
pub(crate) fn met_from(
    alloc: Global,
    game: &ForwardGame,
    choices: &[Option<u32>],
    most: u32,
    places: &[u32],
) -> Result<MetPlaces, AllocError>
    requires inside { All (λ place. place < length game.now) places.now }
    requires choices { LeadsInside game.now choices.now }
    ensures tree { IfOk result
        (λ met. IsTree game.now choices.now most places.now met.places.items met.origins.items) }
    ensures all { IfOk result (λ met. MeetsAll game.now choices.now most places.now met.places.items) }
{
    let mut marks = vec![in alloc; false; game.len()]?;
    let mut met = Vec::new(alloc);
    let mut origins = Vec::new(alloc);
    meet(game, most, places, None, &mut marks, &mut met, &mut origins)?;
    let mut index = 0;
    while index < met.len() {
        let left = edges_left(game, choices, met[index]);
        meet(
            game,
            most,
            left,
            Some(index),
            &mut marks,
            &mut met,
            &mut origins,
        )?;
        index += 1;
    }
    Ok(MetPlaces {
        places: met,
        origins,
    })
}

/// Marks the places of priority at most `most` that were not marked, and meets them from an origin.
fn meet(
    game: &ForwardGame,
    most: u32,
    places: &[u32],
    origin: Option<usize>,
    marks: &mut Vec<bool>,
    met: &mut Vec<u32>,
    origins: &mut Vec<Option<usize>>,
) -> Result<(), AllocError>
    requires inside { All (λ place. place < length game.now) places.now }
    requires count { vec_len marks.old ≡ length game.now }
    requires even { vec_len origins.old ≡ vec_len met.old }
    ensures met { OnOk result
        (AreMet game.now most places.now origin
        marks.old.items met.old.items origins.old.items
        marks.new.items met.new.items origins.new.items) }
{
    for place in places {
        let index = *place as usize;
        if game.priority(*place) <= most && !marks[index] {
            marks[index] = true;
            met.push(*place)?;
            origins.push(origin)?;
        }
    }
    Ok(())
}
