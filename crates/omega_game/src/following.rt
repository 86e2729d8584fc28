//! The places that a strategy reaches.
ghost use Rattle.std.specs.Prelude.{◌≡◌, ◌<◌, length, vec_len, All, IfOk, IsTrue};
ghost use Rattle.omega_game_reaching.specs.Reaching.{LeadsInside};
ghost use Rattle.omega_game.specs.private.checking.Following.{AreClosed, AreFollowed};
ghost use Rattle.omega_game.specs.private.checking.Following.{AreMarked, LeadsToMarked};

use omega_game_reaching::{edges_left, reached_from};
use omega_game_values::ForwardGame;
use std::alloc::{AllocError, Global};

/// Marks the places that are reached from the given ones. If no edge leads out of these, as out of what a strategy
/// wins, they are looked at one by one and not searched. Linear in nodes and edges.
pub(crate) fn followed_from(
    alloc: Global,
    game: &ForwardGame,
    choices: &[Option<u32>],
    places: &[u32],
) -> Result<Vec<bool>, AllocError>
    requires inside { All (λ place. place < length game.now) places.now }
    requires choices { LeadsInside game.now choices.now }
    ensures count { IfOk result (λ marks. vec_len marks ≡ length game.now) }
    ensures reached { IfOk result (λ marks. AreFollowed game.now choices.now places.now marks.items) }
{
    game.keeps_limits();
    let marks = marks_of_places(alloc, game.len(), places)?;
    if are_closed(game, choices, marks.as_slice()) {
        return Ok(marks);
    }
    let marks = reached_from(alloc, game, choices, u32::MAX, places)?;
    Ok(marks)
}

/// Marks the places.
fn marks_of_places(alloc: Global, count: usize, places: &[u32]) -> Result<Vec<bool>, AllocError>
    requires inside { All (λ place. place < count) places.now }
    ensures count { IfOk result (λ marks. vec_len marks ≡ count) }
    ensures marked { IfOk result (λ marks. AreMarked places.now marks.items) }
{
    let mut marks = vec![in alloc; false; count]?;
    for place in places {
        marks[*place as usize] = true;
    }
    Ok(marks)
}

/// Whether each edge left possible at a marked place leads to a marked place.
fn are_closed(game: &ForwardGame, choices: &[Option<u32>], marks: &[bool]) -> bool
    requires count { length marks.now ≡ length game.now }
    requires choices { LeadsInside game.now choices.now }
    ensures { IsTrue result → AreClosed game.now choices.now marks.now }
{
    for place in 0..game.len() as u32 {
        if marks[place as usize] && !leads_to_marked(game, choices, marks, place) {
            return false;
        }
    }
    true
}

/// Whether each edge left possible at a place leads to a marked one.
fn leads_to_marked(game: &ForwardGame, choices: &[Option<u32>], marks: &[bool], place: u32) -> bool
    requires place { place < length game.now }
    requires count { length marks.now ≡ length game.now }
    requires choices { LeadsInside game.now choices.now }
    ensures { IsTrue result → LeadsToMarked game.now choices.now marks.now place }
{
    for next in edges_left(game, choices, place) {
        if !marks[*next as usize] {
            return false;
        }
    }
    true
}
