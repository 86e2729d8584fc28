//! The strongly connected components of some edges.
ghost use Rattle.std.specs.Prelude.{◌≡◌, ◌≤◌, ◌<◌, ◌+◌, ◌++◌, length, take, drop, All, IfOk, IsOkUnless};
ghost use Rattle.omega_graph.specs.Graph.{AreEdges, AreStates};
ghost use Rattle.omega_graph.specs.Components.{AreAmong, AreConnectedIn, HaveEdges};
ghost use Rattle.omega_graph.specs.Components.{HoldClosedWalksIn, ShareNoEdge};
ghost use Rattle.omega_graph.specs.private.Ends.{AreInside, ArePaired, enters_in, leaves_in};
ghost use Rattle.omega_graph.specs.private.Classes.{AreComponentsBetween, AreComponentsIn, AreComponentsOf};

use crate::edge_components::EdgeComponents;
use crate::edges::ListedEdges;
use crate::ends::{enters_of, leaves_of};
use crate::graph::Graph;
use crate::judging::judged_edge_components;
use crate::numbering::StateNumbering;
use crate::plain::plain_edge_components;
use crate::scratch::Scratch;
use omega_text::Refusal;
use std::alloc::{AllocError, Global};

/// If a graph has more states than this for each edge of a list, the states are renumbered.
const STATES_AN_EDGE: usize = 4;

/// Returns the strongly connected components of the graph's `edges`: a list for each component that has an edge inside.
/// `scratch` serves the next call even after a refusal.
///
/// Tarjan's algorithm (1972) suggests the components, and a judge confirms them. The cost is then linear in the number
/// of `edges`, however large the graph is. If the judge does not confirm them, two searches are made for each edge.
/// Tests show no such suggestion, and no proof excludes one.
pub fn components(
    alloc: Global,
    scratch: &mut Scratch,
    graph: &Graph,
    edges: &[u32],
) -> Result<EdgeComponents, Refusal>
    requires scratch { graph.now.states ≤ scratch.old }
    requires edges { AreEdges graph.now edges.now }

    // What the components are, whatever marks the edges have.
    ensures some { IfOk result HaveEdges }
    ensures among { IfOk result (AreAmong edges.now) }
    ensures connected { IfOk result (AreConnectedIn graph.now) }
    ensures closed { IfOk result (HoldClosedWalksIn graph.now edges.now) }
    ensures apart { IfOk result ShareNoEdge }

    ensures scratch { scratch.new ≡ scratch.old }
    ensures memory { IsOkUnless result Refusal.Memory }
{
    let edge_components = edge_components_in(alloc, scratch, graph, edges)?;
    Ok(edge_components)
}

/// Returns the components. Renumbers the states if the edges may end at few of them.
fn edge_components_in(
    alloc: Global,
    scratch: &mut Scratch,
    graph: &Graph,
    edges: &[u32],
) -> Result<EdgeComponents, AllocError>
    requires scratch { graph.now.states ≤ scratch.old }
    requires edges { AreEdges graph.now edges.now }
    ensures components { IfOk result (AreComponentsIn graph.now edges.now) }
    ensures scratch { scratch.new ≡ scratch.old }
{
    let leaves = leaves_of(alloc, graph, edges)?;
    let enters = enters_of(alloc, graph, edges)?;
    if graph.states() as usize / STATES_AN_EDGE <= edges.len() {
        let edge_components = all_edge_components(
            alloc,
            graph,
            leaves.as_slice(),
            enters.as_slice(),
            edges,
        )?;
        return Ok(edge_components);
    }
    let ends = appended_states(leaves, enters.as_slice())?;
    let numbering = scratch.number(alloc, ends.as_slice())?;
    let edge_components = numbered_edge_components(alloc, &numbering, edges)?;
    Ok(edge_components)
}

/// Returns the components of `edges`, which go from `leaves` to `enters`. Looks at each state of the graph.
fn all_edge_components(
    alloc: Global,
    graph: &Graph,
    leaves: &[u32],
    enters: &[u32],
    edges: &[u32],
) -> Result<EdgeComponents, AllocError>
    requires edges { AreEdges graph.now edges.now }
    requires leaves { leaves.now ≡ leaves_in graph.now edges.now }
    requires enters { enters.now ≡ enters_in graph.now edges.now }
    requires leave { AreStates graph.now leaves.now }
    requires enter { AreStates graph.now enters.now }
    ensures { IfOk result (AreComponentsIn graph.now edges.now) }
{
    let edges = ListedEdges {
        count: graph.states() as usize,
        leaves,
        enters,
        numbers: edges,
    };
    let edge_components = edge_components_by(alloc, &edges)?;
    Ok(edge_components)
}

/// Appends the states `behind` to `front`.
fn appended_states(mut front: Vec<u32>, behind: &[u32]) -> Result<Vec<u32>, AllocError>
    ensures { IfOk result (λ joined. joined.items ≡ front.items ++ behind.now) }
{
    front.extend_from_slice(behind)?;
    Ok(front)
}

/// Returns the components of `edges`. `numbering` numbers the states that they leave, followed by those that they
/// enter.
fn numbered_edge_components(
    alloc: Global,
    numbering: &StateNumbering,
    edges: &[u32],
) -> Result<EdgeComponents, AllocError>
    requires count { length numbering.now.numbers.items ≡ length edges.now + length edges.now }
    requires below { All
        (λ number. number < length numbering.now.states.items) numbering.now.numbers.items }
    ensures { IfOk result (AreComponentsBetween
        (take (length edges.now) numbering.now.numbers.items)
        (drop (length edges.now) numbering.now.numbers.items)
        edges.now) }
{
    let (leaves, enters) = numbering.numbers.as_slice().split_at(edges.len());
    let edges = ListedEdges {
        count: numbering.states.len(),
        leaves,
        enters,
        numbers: edges,
    };
    let edge_components = edge_components_by(alloc, &edges)?;
    Ok(edge_components)
}

/// Returns the components of `edges`: those of Tarjan's algorithm if the judge confirms them, else those of the plain
/// search.
fn edge_components_by(alloc: Global, edges: &ListedEdges<'_>) -> Result<EdgeComponents, AllocError>
    requires paired { ArePaired edges.now }
    requires inside { AreInside edges.now }
    ensures { IfOk result (AreComponentsOf edges.now) }
{
    match judged_edge_components(alloc, edges)? {
        Some(edge_components) => Ok(edge_components),
        None => {
            let edge_components = plain_edge_components(alloc, edges)?;
            Ok(edge_components)
        }
    }
}
