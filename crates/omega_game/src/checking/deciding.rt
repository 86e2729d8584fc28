//! Whether no place that is reached bears a losing priority and recurs: suggested by a fast search, checked, and else
//! tested plainly.
ghost use Rattle.std.specs.Prelude.{◌≡◌, ◌<◌, length, IfOk, IfSome, IsTrue};
ghost use Rattle.omega_game_reaching.specs.Reaching.{LeadsInside};
ghost use Rattle.omega_game.specs.private.checking.Decision.{IsLosingPlace, IsRightDecision};
ghost use Rattle.omega_game.specs.private.checking.Following.{AreClosed};

use crate::checking::components::PlaceEdge;
use crate::checking::decision::Decision;
use crate::checking::finding::Finding;
use crate::checking::nesting::search_nested;
use crate::checking::ordering::shows_none;
use crate::checking::recurring::{decide_plainly, recurs};
use crate::checking::top_nodes::search_by_top_nodes;
use omega_game_reaching::edges_left;
use omega_game_values::{ForwardGame, Player};
use std::alloc::{AllocError, Global};

/// Decides whether no marked place of a priority that loses for the player recurs.
pub(crate) fn decide(
    alloc: Global,
    game: &ForwardGame,
    player: Player,
    choices: &[Option<u32>],
    marks: &[bool],
) -> Result<Decision, AllocError>
    requires count { length marks.now ≡ length game.now }
    requires choices { LeadsInside game.now choices.now }
    requires closed { AreClosed game.now choices.now marks.now }
    ensures right { IfOk result (IsRightDecision game.now player choices.now marks.now) }
{
    if let Some(decision) = decide_fast(alloc, game, player, choices, marks)? {
        return Ok(decision);
    }
    let decision = decide_plainly(alloc, game, player, choices, marks)?;
    Ok(decision)
}

/// Decides as `decide` does if the suggestion of the fast search is confirmed; else returns `None`.
pub(crate) fn decide_fast(
    alloc: Global,
    game: &ForwardGame,
    player: Player,
    choices: &[Option<u32>],
    marks: &[bool],
) -> Result<Option<Decision>, AllocError>
    requires count { length marks.now ≡ length game.now }
    requires choices { LeadsInside game.now choices.now }
    requires closed { AreClosed game.now choices.now marks.now }
    ensures right { IfOk result
        (λ found. IfSome found (IsRightDecision game.now player choices.now marks.now)) }
{
    if let Some(finding) = search_by_top_nodes(alloc, game, player, choices, marks)?
        && let Some(decision) = confirmed_decision(alloc, game, player, choices, marks, finding)?
    {
        return Ok(Some(decision));
    }
    let finding = suggest(alloc, game, player, choices, marks)?;
    confirmed_decision(alloc, game, player, choices, marks, finding)
}

/// Returns the decision that a search suggests, or `None` if it is not confirmed.
fn confirmed_decision(
    alloc: Global,
    game: &ForwardGame,
    player: Player,
    choices: &[Option<u32>],
    marks: &[bool],
    finding: Finding,
) -> Result<Option<Decision>, AllocError>
    requires count { length marks.now ≡ length game.now }
    requires choices { LeadsInside game.now choices.now }
    requires closed { AreClosed game.now choices.now marks.now }
    ensures right { IfOk result
        (λ found. IfSome found (IsRightDecision game.now player choices.now marks.now)) }
{
    match finding {
        Finding::Recurring(place) => {
            if loses_at(alloc, game, player, choices, marks, place)? {
                return Ok(Some(Decision::Loses(place)));
            }
        }
        Finding::Order(order) => {
            if shows_none(alloc, game, player, choices, marks, order.as_slice())? {
                return Ok(Some(Decision::Wins));
            }
        }
    }
    Ok(None)
}

/// Whether a place is marked, of a losing priority, and recurs.
fn loses_at(
    alloc: Global,
    game: &ForwardGame,
    player: Player,
    choices: &[Option<u32>],
    marks: &[bool],
    place: u32,
) -> Result<bool, AllocError>
    requires count { length marks.now ≡ length game.now }
    requires choices { LeadsInside game.now choices.now }
    ensures loses { IfOk result
        (λ answer. IsTrue answer → IsLosingPlace game.now player choices.now marks.now place) }
{
    if place as usize >= game.len() || !marks[place as usize] {
        return Ok(false);
    }
    if !player.loses(game.priority(place)) {
        return Ok(false);
    }
    let answer = recurs(alloc, game, choices, place)?;
    Ok(answer)
}

/// Returns the finding of the search by nested components among the marked places.
fn suggest(
    alloc: Global,
    game: &ForwardGame,
    player: Player,
    choices: &[Option<u32>],
    marks: &[bool],
) -> Result<Finding, AllocError>
    requires count { length marks.now ≡ length game.now }
    requires choices { LeadsInside game.now choices.now }
{
    let mut priorities = Vec::with_capacity(alloc, game.len())?;
    let mut edges = Vec::new(alloc);
    for place in 0..game.len() as u32 {
        priorities.push(game.priority(place))?;
        if marks[place as usize] {
            add_edges(place, edges_left(game, choices, place), &mut edges)?;
        }
    }
    search_nested(alloc, player, priorities.as_slice(), marks, edges)
}

/// Adds the edges from a place.
fn add_edges(from: u32, left: &[u32], edges: &mut Vec<PlaceEdge>) -> Result<(), AllocError> {
    for to in left {
        edges.push(PlaceEdge { from, to: *to })?;
    }
    Ok(())
}
