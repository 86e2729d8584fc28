//! The part of a game that a node reaches.
ghost use Rattle.std.specs.Prelude.{◌≡◌, ◌∷◌, ◌++◌, [], ◌<◌, length, IfOk, OnOk, IsOkUnless};
ghost use Rattle.omega_game_values.specs.Building.{specified, without_name};
ghost use Rattle.omega_game_values.specs.Game.{IsGame, IsWithinLimits, node_at};
ghost use Rattle.omega_game_reaching.specs.Part.{IsPart};

use crate::reaching::reached_from;
use omega_game_values::{ForwardGame, Game, GameBuilder};
use omega_text::Refusal;
use std::alloc::Global;

/// Returns the game of all nodes to which a list of listed edges leads from the place, itself included. Returns
/// [`Refusal::Memory`] if a request for memory is refused. Takes time in the nodes, and in the successors and names
/// of those that are kept.
pub fn part(alloc: Global, game: &Game, place: u32) -> Result<Game, Refusal>
    requires { place < length game.now }
    ensures part { IfOk result (λ part. IsPart game.now place part) }
    ensures memory { IsOkUnless result Refusal.Memory }
{
    let kept = forward_part(alloc, game.forward_game(), place)?;
    kept.with_predecessors(alloc)
}

/// Returns the forward game of all nodes to which a list of listed edges leads from the place, itself included.
/// Returns [`Refusal::Memory`] if a request for memory is refused. Takes time in the nodes, and in the successors
/// and names of those that are kept.
pub fn forward_part(alloc: Global, game: &ForwardGame, place: u32) -> Result<ForwardGame, Refusal>
    requires { place < length game.now }
    ensures part { IfOk result (λ part. IsPart game.now place part) }
    ensures memory { IsOkUnless result Refusal.Memory }
{
    let count = game.len();
    let marks = reached_from(alloc, game, &[], u32::MAX, &[place])?;
    let mut builder = GameBuilder::new(alloc);
    for kept in 0..count {
        if marks[kept] {
            specify(&mut builder, game, kept as u32)?;
        }
    }
    builder.finish_forward()
}

/// Adds the specification of the node at a place.
fn specify(builder: &mut GameBuilder, game: &ForwardGame, place: u32) -> Result<(), Refusal>
    requires place { place < length game.now }
    requires game { IsGame game.now }
    requires limits { IsWithinLimits game.now }
    ensures ok { OnOk result
        (builder.new ≡ builder.old ++ specified game.now (node_at game.now place) ∷ []) }
    ensures memory { IsOkUnless result Refusal.Memory }
{
    specify_unnamed(builder, game, place)?;
    if let Some(name) = game.name(place) {
        builder.set_name(name)?;
    }
    Ok(())
}

/// Adds the specification of the node at a place, without its name.
fn specify_unnamed(builder: &mut GameBuilder, game: &ForwardGame, place: u32) -> Result<(), Refusal>
    requires place { place < length game.now }
    requires game { IsGame game.now }
    requires limits { IsWithinLimits game.now }
    ensures ok { OnOk result
        (builder.new ≡ builder.old ++ without_name (specified game.now (node_at game.now place)) ∷ []) }
    ensures memory { IsOkUnless result Refusal.Memory }
{
    let successors = game.successors(place);
    let first = game.id(successors[0]);
    builder.add_node(
        game.id(place),
        game.priority(place),
        game.owner(place),
        first,
    )?;
    for index in 1..successors.len() {
        let next = game.id(successors[index]);
        builder.add_successor(next)?;
    }
    Ok(())
}
