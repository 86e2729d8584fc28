//! Graphs by their edges, and small ones whose components, reached states and walks are known by hand.
ghost use Rattle.std.specs.Prelude.{◌≡◌, ◌≤◌, IfOk, IsTrue};
ghost use Rattle.omega_graph.specs.Graph.{AreEdges, AreStates};

use crate::rows::assert_row;
use omega_graph::{EdgeComponents, Graph, Refusal, Scratch, components, path, reached_flags};
use std::alloc::Global;
use std::test::Fail;

/// The entry for no component.
const NONE: u32 = u32::MAX;

/// Returns a graph of `states` states with those of `edges` that are edges between its states.
fn graph_of(alloc: Global, states: u32, edges: &[(u32, u32)]) -> Result<Graph, Refusal>
    ensures { IfOk result (λ graph. graph.states ≡ states) }
{
    let mut graph = Graph::new(alloc, states);
    for (from, to) in edges {
        if *from < states && *to < states {
            graph.add(*from, *to)?;
        }
    }
    Ok(graph)
}

/// Whether these are numbers of edges of a graph.
fn are_edges(graph: &Graph, edges: &[u32]) -> bool
    ensures { IsTrue result → AreEdges graph.now edges.now }
{
    let count = graph.len();
    edges.iter().all(|edge| (*edge as usize) < count)
}

/// Whether these are numbers of states of a graph.
fn are_states(graph: &Graph, states: &[u32]) -> bool
    ensures { IsTrue result → AreStates graph.now states.now }
{
    let count = graph.states();
    states.iter().all(|state| *state < count)
}

/// Returns for each edge the least edge of its component, or `NONE`.
fn least_of(
    alloc: Global,
    edges: usize,
    edge_components: &EdgeComponents,
) -> Result<Vec<u32>, Refusal> {
    let mut least = vec![in alloc; NONE; edges]?;
    for index in 0..edge_components.len() {
        note_least(edge_components.edge_component(index), &mut least);
    }
    Ok(least)
}

/// Notes at each edge of a component the least of them.
fn note_least(component: &[u32], least: &mut [u32]) {
    let mut first = NONE;
    for edge in component {
        first = first.min(*edge);
    }
    for edge in component {
        if let Some(entry) = least.get_mut(*edge as usize) {
            *entry = first;
        }
    }
}

/// Returns the same for the components of some edges of a graph, or [Refusal::Io] if these are no edges of it.
fn least_in(alloc: Global, graph: &Graph, edges: &[u32]) -> Result<Vec<u32>, Refusal> {
    if !are_edges(graph, edges) {
        return Err(Refusal::Io);
    }
    let mut scratch = Scratch::new(alloc, graph.states())?;
    least_again(alloc, &mut scratch, graph, edges)
}

/// Returns the same, once the scratch space has served another call.
fn least_again(
    alloc: Global,
    scratch: &mut Scratch,
    graph: &Graph,
    edges: &[u32],
) -> Result<Vec<u32>, Refusal>
    requires scratch { graph.now.states ≤ scratch.old }
    requires edges { AreEdges graph.now edges.now }
{
    let _first = components(alloc, scratch, graph, edges)?;
    match components(alloc, scratch, graph, edges) {
        Ok(edge_components) => least_of(alloc, graph.len(), &edge_components),
        Err(refusal) => Err(refusal),
    }
}

/// Whether the components of some edges of a graph are these.
fn are_components(alloc: Global, graph: &Graph, edges: &[u32], wanted: &[u32]) -> bool {
    match least_in(alloc, graph, edges) {
        Ok(least) => least.as_slice() == wanted,
        Err(_) => false,
    }
}

/// Two states with an edge each way between them, and a third joined to the second so.
const CHAIN: [(u32, u32); 4] = [(0, 1), (1, 0), (1, 2), (2, 1)];

/// How many states, the edges, which of them are asked for, and for each edge the least edge of its component.
type Grouped = (u32, &'static [(u32, u32)], &'static [u32], &'static [u32]);

/// No edges, and edges on no closed walk; an edge from a state to itself, twice, and one away from it; two components
/// joined by one edge; two circles through one state; and some edges of a graph.
static GROUPED: [Grouped; 8] = [
    (0, &[], &[], &[]),
    (
        3,
        &[(0, 1), (1, 2), (0, 2)],
        &[0, 1, 2],
        &[NONE, NONE, NONE],
    ),
    (2, &[(0, 0), (0, 1), (0, 0)], &[0, 1, 2], &[0, NONE, 0]),
    (
        4,
        &[(0, 1), (1, 0), (1, 2), (2, 3), (3, 2)],
        &[0, 1, 2, 3, 4],
        &[0, 0, NONE, 3, 3],
    ),
    (
        3,
        &[(0, 1), (1, 0), (0, 2), (2, 0)],
        &[0, 1, 2, 3],
        &[0, 0, 0, 0],
    ),
    (3, &CHAIN, &[2, 3], &[NONE, NONE, 2, 2]),
    (3, &CHAIN, &[0, 3, 1], &[0, 0, NONE, NONE]),
    (3, &CHAIN, &[3, 0], &[NONE, NONE, NONE, NONE]),
];

/// Whether a row holds.
fn is_grouped(alloc: Global, row: &Grouped) -> bool {
    let (states, edges, asked, wanted) = *row;
    match graph_of(alloc, states, edges) {
        Ok(graph) => are_components(alloc, &graph, asked, wanted),
        Err(_) => false,
    }
}

#[test]
fn edges_have_their_components(rt: HostRuntime) {
    for (row, grouped) in GROUPED.iter().enumerate() {
        assert_row(&rt, row, is_grouped(rt.alloc(), grouped));
    }
}

/// A circle through three states, with a short cut, and a state alone.
static FOUR: [(u32, u32); 5] = [(0, 1), (1, 2), (0, 2), (2, 0), (3, 3)];

/// Returns which states some edges reach from some states, or [Refusal::Io] if these are none of the graph.
fn reached_by(
    alloc: Global,
    graph: &Graph,
    edges: &[u32],
    sources: &[u32],
) -> Result<Vec<bool>, Refusal> {
    if !are_edges(graph, edges) || !are_states(graph, sources) {
        return Err(Refusal::Io);
    }
    reached_flags(alloc, graph, edges, sources)
}

/// Whether these states are reached.
fn are_reached(found: Result<Vec<bool>, Refusal>, wanted: &[bool]) -> bool {
    match found {
        Ok(marks) => marks.as_slice() == wanted,
        Err(_) => false,
    }
}

/// Edges, sources, and which of the four states these edges reach from these sources.
static REACHED: [(&[u32], &[u32], &[bool]); 3] = [
    (&[0, 1, 2, 3, 4], &[0], &[true, true, true, false]),
    (&[1, 4], &[1], &[false, true, true, false]),
    (&[0, 1, 2, 3, 4], &[], &[false, false, false, false]),
];

/// Returns the first row of the reached states that does not hold.
fn wrong_reach(alloc: Global, graph: &Graph) -> Option<usize> {
    for (row, (edges, sources, wanted)) in REACHED.iter().enumerate() {
        if !are_reached(reached_by(alloc, graph, edges, sources), wanted) {
            return Some(row);
        }
    }
    None
}

/// Returns a walk of some edges from one of some states to another, or [Refusal::Io] if these are none of the graph.
fn path_by(
    alloc: Global,
    graph: &Graph,
    edges: &[u32],
    sources: &[u32],
    target: u32,
) -> Result<Option<Vec<u32>>, Refusal> {
    if !are_edges(graph, edges) || !are_states(graph, sources) || target >= graph.states() {
        return Err(Refusal::Io);
    }
    path(alloc, graph, edges, sources, target)
}

/// Whether this walk was found, or none.
fn is_walk(found: Result<Option<Vec<u32>>, Refusal>, wanted: Option<&[u32]>) -> bool {
    match found {
        Ok(Some(walk)) => wanted == Some(walk.as_slice()),
        Ok(None) => wanted.is_none(),
        Err(_) => false,
    }
}

/// Edges, sources, a target, and the only shortest walk of these edges, or none.
static WALKS: [(&[u32], &[u32], u32, Option<&[u32]>); 4] = [
    (&[0, 1, 2, 3, 4], &[0], 2, Some(&[2])),
    (&[0, 1, 3, 4], &[3, 0], 2, Some(&[0, 1])),
    (&[0, 1, 2, 3, 4], &[2], 2, Some(&[])),
    (&[0, 1, 2, 3, 4], &[0], 3, None),
];

/// Returns the first row of the walks that does not hold.
fn wrong_walk(alloc: Global, graph: &Graph) -> Option<usize> {
    for (row, (edges, sources, target, wanted)) in WALKS.iter().enumerate() {
        if !is_walk(path_by(alloc, graph, edges, sources, *target), *wanted) {
            return Some(row);
        }
    }
    None
}

/// Returns which row of the reached states does not hold, and which of the walks.
fn wrong_rows(alloc: Global) -> Result<(Option<usize>, Option<usize>), Refusal> {
    match graph_of(alloc, 4, &FOUR) {
        Ok(graph) => Ok((wrong_reach(alloc, &graph), wrong_walk(alloc, &graph))),
        Err(refusal) => Err(refusal),
    }
}

#[test]
fn states_are_reached_and_walks_found(rt: HostRuntime) -> Result<(), Fail> {
    assert_eq!(rt; wrong_rows(rt.alloc())?, (None, None));
    Ok(())
}
