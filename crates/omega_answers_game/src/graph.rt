//! The edges of a game as a table.
ghost use Rattle.std.specs.Prelude.{◌≡◌, ◌++◌, ◌<◌, IfOk, IsOkUnless, OnOk, length};
ghost use Rattle.omega_answers_game.specs.private.Table.{edges_from, shape_of};

use omega_game_values::{ForwardGame, Refusal};
use omega_graph::Graph;
use std::alloc::Global;

/// Returns the graph of `game`: its states are the places, its edges go from each place to the successors listed there.
pub(crate) fn graph_of(alloc: Global, game: &ForwardGame) -> Result<Graph, Refusal>
    ensures graph { IfOk result (λ graph. graph ≡ shape_of game.now) }
    ensures memory { IsOkUnless result Refusal.Memory }
{
    let nodes = game.len() as u32;
    let mut graph = Graph::new(alloc, nodes);
    for place in 0..nodes {
        add_edges(game, place, &mut graph)?;
    }
    Ok(graph)
}

/// Adds the edges from `place` to its successors.
fn add_edges(game: &ForwardGame, place: u32, graph: &mut Graph) -> Result<(), Refusal>
    requires place { place < length game.now }
    requires states { graph.old.states ≡ length game.now }
    ensures states { OnOk result (graph.new.states ≡ graph.old.states) }
    ensures edges { OnOk result (graph.new.edges ≡ graph.old.edges ++ edges_from game.now place) }
    ensures memory { IsOkUnless result Refusal.Memory }
{
    game.keeps_limits();
    for successor in game.successors(place) {
        graph.add(place, *successor)?;
    }
    Ok(())
}
