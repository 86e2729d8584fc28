//! Whether listed edges join places of a game.
ghost use Rattle.std.specs.Prelude.{◌≡◌, ◌<◌, ◌↔◌, All, IfOk, IsOkUnless, IsTrue, length};
ghost use Rattle.omega_game_values.specs.Game.{HasEdge};
ghost use Rattle.omega_game_values.specs.Paths.{IsPath};
ghost use Rattle.omega_answers_walk.specs.Walk.{AreJoined, IsLassoIn};

use omega_game::ForwardGame;
use omega_text::Refusal;
use std::alloc::Global;

/// Whether `stem` and `cycle` are a lasso of `game`: the cycle has a place, and listed edges join the places along the
/// stem, round the cycle and back to its first. Each step is looked for among the successors of its place, so the time
/// is at most that of both lists times the greatest number of successors.
pub(crate) fn is_lasso(
    alloc: Global,
    game: &ForwardGame,
    stem: &[u32],
    cycle: &[u32],
) -> Result<bool, Refusal>
    requires stem { All (λ place. place < length game.now) stem.now }
    requires cycle { All (λ place. place < length game.now) cycle.now }
    ensures lasso { IfOk result (λ joined. IsTrue joined ↔ IsLassoIn game.now stem.now cycle.now) }
    ensures memory { IsOkUnless result Refusal.Memory }
{
    if cycle.is_empty() {
        return Ok(false);
    }
    let mut lap = Vec::with_capacity(alloc, stem.len() + cycle.len() + 1)?;
    lap.extend_from_slice(stem)?;
    lap.extend_from_slice(cycle)?;
    lap.push(cycle[0])?;
    Ok(are_joined(game, lap.as_slice()))
}

/// Whether listed edges join `places`, each to the next one.
fn are_joined(game: &ForwardGame, places: &[u32]) -> bool
    requires { All (λ place. place < length game.now) places.now }
    ensures { IsTrue result ↔ AreJoined game.now places.now }
{
    match places {
        [] => true,
        [first, others @ ..] => joins(game, *first, others),
    }
}

/// Whether listed edges join the place `from` and then `places`, each to the next one.
fn joins(game: &ForwardGame, from: u32, places: &[u32]) -> bool
    requires from { from < length game.now }
    requires places { All (λ place. place < length game.now) places.now }
    ensures { IsTrue result ↔ IsPath game.now from places.now }
{
    let mut at = from;
    for place in places {
        if !has_edge(game, at, *place) {
            return false;
        }
        at = *place;
    }
    true
}

/// Whether the node at `from` lists that at `to` as a successor.
fn has_edge(game: &ForwardGame, from: u32, to: u32) -> bool
    requires { from < length game.now }
    ensures { IsTrue result ↔ HasEdge game.now from to }
{
    game.successors(from).contains(&to)
}
