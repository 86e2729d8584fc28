//! The leader of each place: the least place of its component.
ghost use Rattle.std.specs.Prelude.{◌≡◌, ◌<◌, All, IfOk, IsOkUnless, length};
ghost use Rattle.std.specs.List.{range_with_len};
ghost use Rattle.omega_graph.specs.Components.{HaveEdges};
ghost use Rattle.omega_graph.specs.Graph.{AreEdges};
ghost use Rattle.omega_answers_game.specs.Components.{AreLeaders};
ghost use Rattle.omega_answers_game.specs.private.Groups.{AreLed, GetOneLeader, IsLeast};

use crate::graph::graph_of;
use omega_game_values::{ForwardGame, Refusal};
use omega_graph::{EdgeComponents, Graph, Scratch, components};
use omega_graph_search::numbers_below;
use std::alloc::Global;

/// Returns the leader of each place. Takes time in the nodes and edges.
pub(crate) fn leaders_of(alloc: Global, game: &ForwardGame) -> Result<Vec<u32>, Refusal>
    ensures leaders { IfOk result (λ leaders. AreLeaders game.now leaders.items) }
    ensures memory { IsOkUnless result Refusal.Memory }
{
    game.keeps_limits();
    let graph = graph_of(alloc, game)?;
    let edges = numbers_below(alloc, graph.len() as u32)?;
    let mut scratch = Scratch::new(alloc, graph.states())?;
    let groups = components(alloc, &mut scratch, &graph, edges.as_slice())?;
    let mut leaders = numbers_below(alloc, graph.states())?;
    lead_all(&graph, &groups, &mut leaders);
    Ok(leaders)
}

/// Gives the states that the edges of each group enter their leader, the least of them. All others keep theirs.
fn lead_all(graph: &Graph, groups: &EdgeComponents, leaders: &mut Vec<u32>)
    requires some { HaveEdges groups.now }
    requires edges { All (AreEdges graph.now) groups.now }
    requires own { leaders.old.items ≡ range_with_len 0 graph.now.states }
    ensures { AreLed graph.now groups.now (length groups.now) leaders.new.items }
{
    for index in 0..groups.len() {
        lead(graph, groups.edge_component(index), leaders);
    }
}

/// Gives the states that the edges of a group enter their leader, the least of them.
fn lead(graph: &Graph, group: &[u32], leaders: &mut Vec<u32>)
    requires some { 0 < length group.now }
    requires edges { AreEdges graph.now group.now }
    requires count { length leaders.old.items ≡ graph.now.states }
    ensures { GetOneLeader graph.now group.now leaders.old.items leaders.new.items }
{
    let leader = least_entered(graph, group);
    for edge in group {
        leaders[graph.to(*edge) as usize] = leader;
    }
}

/// Returns the least state that the edges of a group enter.
fn least_entered(graph: &Graph, group: &[u32]) -> u32
    requires some { 0 < length group.now }
    requires edges { AreEdges graph.now group.now }
    ensures least { IsLeast graph.now group.now result }
    ensures inside { result < graph.now.states }
{
    let mut least = graph.to(group[0]);
    for edge in group {
        least = least.min(graph.to(*edge));
    }
    least
}
