//! The game that arrays encode.
ghost use Rattle.std.specs.Prelude.{◌≡◌, ◌++◌, ◌∷◌, [], ◌<◌, ◌≤◌, IfOk};
ghost use Rattle.std.specs.Prelude.{IfErr, IsOk, IsOkUnless, OnOk, length};
ghost use Rattle.omega_text.specs.Cases.{never, or_game, or_memory};
ghost use Rattle.omega_game_values.specs.Limits.{most_nodes};
ghost use Rattle.omega_arrays.specs.Arrays.{nodes_in, node_count, player_of};
ghost use Rattle.omega_arrays.specs.Shape.{IsGameShape, IsSizeFault, IsSized};
ghost use Rattle.omega_arrays.specs.private.Specified.{spec_of, specs_below};

use crate::arrays::Arrays;
use omega_game::{
    ForwardGame, Game, GameBuilder, MOST_NODES, MOST_SUCCESSORS, Player, Refusal,
    games_have_no_fault, specifications_have_one_game,
};
use omega_text::GameFault;
use std::alloc::Global;

/// Builds the game that `arrays` encode, without predecessors.
pub(crate) fn game_of_arrays(alloc: Global, arrays: &Arrays<'_>) -> Result<ForwardGame, Refusal>
    requires { IsGameShape arrays.now }
    ensures game { IfOk result (λ game. game ≡ nodes_in arrays.now) }
    ensures count { IfOk result (λ game. length game ≡ node_count arrays.now) }
    ensures sized { IsOk result → IsSized arrays.now }
    ensures refused { IfErr result (or_game (IsSizeFault arrays.now) (or_memory never)) }
{
    specifications_have_one_game();
    games_have_no_fault();
    if arrays.priorities().len() > MOST_NODES {
        return Err(Refusal::Game(GameFault::TooManyNodes));
    }
    if arrays.successors().len() > MOST_SUCCESSORS {
        return Err(Refusal::Game(GameFault::TooManyEdges));
    }
    let nodes = specs_of_arrays(alloc, arrays)?;
    nodes.finish_forward()
}

/// Builds the game that `arrays` encode, with predecessors.
pub(crate) fn built_game(alloc: Global, arrays: &Arrays<'_>) -> Result<Game, Refusal>
    requires { IsGameShape arrays.now }
    ensures game { IfOk result (λ game. game ≡ nodes_in arrays.now) }
    ensures count { IfOk result (λ game. length game ≡ node_count arrays.now) }
    ensures sized { IsOk result → IsSized arrays.now }
    ensures refused { IfErr result (or_game (IsSizeFault arrays.now) (or_memory never)) }
{
    match game_of_arrays(alloc, arrays) {
        Ok(forward) => forward.with_predecessors(alloc),
        Err(refusal) => Err(refusal),
    }
}

/// Returns the specifications of the nodes.
fn specs_of_arrays(alloc: Global, arrays: &Arrays<'_>) -> Result<GameBuilder, Refusal>
    requires shape { IsGameShape arrays.now }
    requires few { node_count arrays.now ≤ most_nodes }
    ensures specified { IfOk result (λ nodes. nodes ≡ specs_below arrays.now (node_count arrays.now)) }
    ensures memory { IsOkUnless result Refusal.Memory }
{
    let count = arrays.priorities().len();
    let mut nodes = GameBuilder::with_room(alloc, count, arrays.successors().len())?;
    for place in 0..count {
        add_node(arrays, place, &mut nodes)?;
    }
    Ok(nodes)
}

/// Adds the specification of the node at `place`.
fn add_node(arrays: &Arrays<'_>, place: usize, nodes: &mut GameBuilder) -> Result<(), Refusal>
    requires shape { IsGameShape arrays.now }
    requires few { node_count arrays.now ≤ most_nodes }
    requires inside { place < node_count arrays.now }
    ensures added { OnOk result (nodes.new ≡ nodes.old ++ spec_of arrays.now place ∷ []) }
    ensures memory { IsOkUnless result Refusal.Memory }
{
    let first = arrays.starts()[place] as usize;
    let end = arrays.starts()[place + 1] as usize;
    let owner = player_of(arrays.owners()[place]);
    let listed = arrays.successors();
    nodes.add_node(
        place as u32,
        arrays.priorities()[place],
        owner,
        listed[first],
    )?;
    for at in first + 1..end {
        nodes.add_successor(listed[at])?;
    }
    Ok(())
}

/// Returns the player with this number: player 0 for 0.
pub(crate) fn player_of(number: u8) -> Player
    ensures { result ≡ player_of number }
{
    match number {
        0 => Player::Zero,
        _ => Player::One,
    }
}
