//! A closed walk through edges that show what a formula asks of all edges together.
ghost use Rattle.std.specs.Prelude.{◌<◌, length, Contains, IfOk, IsOkUnless, OnOk};
ghost use Rattle.omega_graph.specs.Rules.{IsConnected};
ghost use Rattle.omega_graph.specs.Walks.{IsClosedEdgeWalk};
ghost use Rattle.omega_graph.specs.Graph.{AreEdges, listed};
ghost use Rattle.omega_graph_accepting_walk.specs.private.Lists.{Extends};
ghost use Rattle.omega_graph_accepting_walk.specs.private.Search.{AreEdgesOf, HaveMarks, IsReady, ShowsAllOf};
ghost use Rattle.omega_graph_accepting_walk.specs.private.Search.{ShowsInfOf, ShowsSet, graph_of};
ghost use Rattle.omega_graph_accepting_walk.specs.private.Tours.{IsWalked, LeadsTo, last_of};
ghost use Rattle.omega_graph_accepting_walk.specs.private.Walks.{LeadOn, ShowsAtom};

use crate::meeting::first_edge_meeting;
use crate::node::Node;
use crate::search::WalkSearch;
use crate::set_table::{add_edges, no_sets, occurs_by};
use crate::walked::Walked;
use omega_graph::{Graph, passing_walks_accept, path};
use omega_text::Refusal;
use std::alloc::Global;

/// Returns a closed walk in the connected `edges` that satisfies each formula that holds of all of them together.
pub(crate) fn walk_through(
    alloc: Global,
    search: &WalkSearch<'_>,
    edges: &[u32],
) -> Result<Vec<u32>, Refusal>
    requires ready { IsReady search.now }
    requires edges { AreEdgesOf search.now edges.now }
    requires some { 0 < length edges.now }
    requires connected { IsConnected (graph_of search.now) (listed edges.now) }
    ensures closed { IfOk result
        (λ walk. IsClosedEdgeWalk (graph_of search.now) (listed edges.now) walk.items) }
    ensures shows { IfOk result (λ walk. ShowsAllOf search.now edges.now walk.items) }
    ensures memory { IsOkUnless result Refusal.Memory }
{
    passing_walks_accept();
    let walk = tour(alloc, search, edges)?;
    Ok(walk)
}

/// Returns a closed walk in the connected `edges` that meets each atom `Inf` that some edge meets. It goes by shortest
/// paths from atom to atom, in the order of the formula, and passes over each atom that it meets already. So it goes
/// round a ring once, whatever the order of its marks.
fn tour(alloc: Global, search: &WalkSearch<'_>, edges: &[u32]) -> Result<Vec<u32>, Refusal>
    requires edges { AreEdgesOf search.now edges.now }
    requires marks { HaveMarks search.now edges.now }
    requires some { 0 < length edges.now }
    requires connected { IsConnected (graph_of search.now) (listed edges.now) }
    ensures closed { IfOk result
        (λ walk. IsClosedEdgeWalk (graph_of search.now) (listed edges.now) walk.items) }
    ensures shows { IfOk result (λ walk. ShowsInfOf search.now edges.now walk.items) }
    ensures memory { IsOkUnless result Refusal.Memory }
{
    let mut walked = walk_of_one_edge(alloc, search, edges)?;
    for node in search.nodes {
        meet_node(alloc, &mut walked, search, edges, *node)?;
    }
    let walk = closed_walk(alloc, walked, search, edges)?;
    Ok(walk)
}

/// Returns the walk through one edge, the first that meets an atom `Inf`, if some edge meets one.
fn walk_of_one_edge(
    alloc: Global,
    search: &WalkSearch<'_>,
    edges: &[u32],
) -> Result<Walked, Refusal>
    requires marks { HaveMarks search.now edges.now }
    requires some { 0 < length edges.now }
    ensures walked { IfOk result (IsWalked search.now edges.now) }
    ensures memory { IsOkUnless result Refusal.Memory }
{
    let mut walk = Vec::new(alloc);
    walk.push(first_stop(search, edges))?;
    let mut sets = no_sets(alloc, search, edges.len())?;
    add_edges(&mut sets, search, walk.as_slice(), 0);
    Ok(Walked { walk, sets })
}

/// Returns the first of `edges` that meets an atom `Inf`, the first of those atoms that one meets; or else the first of
/// `edges`.
fn first_stop(search: &WalkSearch<'_>, edges: &[u32]) -> u32
    requires marks { HaveMarks search.now edges.now }
    requires some { 0 < length edges.now }
    ensures among { Contains edges.now result }
{
    for node in search.nodes {
        if let Node::Inf(negated, set) = *node {
            if let Some(edge) = first_edge_meeting(search, edges, negated, set) {
                return edge;
            }
        }
    }
    edges[0]
}

/// Goes on to an edge that meets `node`, if it is an atom `Inf` that some edge meets and the walk does not.
fn meet_node(
    alloc: Global,
    walked: &mut Walked,
    search: &WalkSearch<'_>,
    edges: &[u32],
    node: Node,
) -> Result<(), Refusal>
    requires edges { AreEdgesOf search.now edges.now }
    requires marks { HaveMarks search.now edges.now }
    requires connected { IsConnected (graph_of search.now) (listed edges.now) }
    requires walked { IsWalked search.now edges.now walked.old }
    ensures walked { OnOk result (IsWalked search.now edges.now walked.new) }
    ensures kept { OnOk result (Extends walked.old.walk.items walked.new.walk.items) }
    ensures shows { OnOk result
        (ShowsAtom (graph_of search.now) edges.now walked.new.walk.items node) }
    ensures memory { IsOkUnless result Refusal.Memory }
{
    match node {
        Node::Inf(negated, set) => meet_set(alloc, walked, search, edges, negated, set),
        Node::Constant(_) | Node::Fin(_, _) | Node::And(_, _) | Node::Or(_, _) => Ok(()),
    }
}

/// Goes on to an edge that carries `set` (that lacks it if `negated`), if some edge does and the walk has none.
fn meet_set(
    alloc: Global,
    walked: &mut Walked,
    search: &WalkSearch<'_>,
    edges: &[u32],
    negated: bool,
    set: u32,
) -> Result<(), Refusal>
    requires edges { AreEdgesOf search.now edges.now }
    requires marks { HaveMarks search.now edges.now }
    requires connected { IsConnected (graph_of search.now) (listed edges.now) }
    requires walked { IsWalked search.now edges.now walked.old }
    ensures walked { OnOk result (IsWalked search.now edges.now walked.new) }
    ensures kept { OnOk result (Extends walked.old.walk.items walked.new.walk.items) }
    ensures shows { OnOk result (ShowsSet search.now edges.now walked.new.walk.items negated set) }
    ensures memory { IsOkUnless result Refusal.Memory }
{
    if occurs_by(
        search,
        walked.walk.as_slice(),
        walked.sets.as_slice(),
        negated,
        set,
    ) {
        return Ok(());
    }
    if let Some(edge) = first_edge_meeting(search, edges, negated, set) {
        pass(alloc, walked, search, edges, edge)?;
    }
    Ok(())
}

/// Goes on by a shortest path to `edge`, and along it.
fn pass(
    alloc: Global,
    walked: &mut Walked,
    search: &WalkSearch<'_>,
    edges: &[u32],
    edge: u32,
) -> Result<(), Refusal>
    requires edges { AreEdgesOf search.now edges.now }
    requires marks { HaveMarks search.now edges.now }
    requires connected { IsConnected (graph_of search.now) (listed edges.now) }
    requires edge { Contains edges.now edge }
    requires walked { IsWalked search.now edges.now walked.old }
    ensures walked { OnOk result (IsWalked search.now edges.now walked.new) }
    ensures kept { OnOk result (Extends walked.old.walk.items walked.new.walk.items) }
    ensures passed { OnOk result (Contains walked.new.walk.items edge) }
    ensures memory { IsOkUnless result Refusal.Memory }
{
    let so_far = walked.walk.as_slice();
    let from = so_far.len();
    let way = way_on(alloc, search.graph, edges, so_far, edge)?;
    walked.walk.extend_from_slice(way.as_slice())?;
    walked.walk.push(edge)?;
    add_edges(&mut walked.sets, search, walked.walk.as_slice(), from);
    Ok(())
}

/// Returns the walk with a shortest path from its end to where it begins.
fn closed_walk(
    alloc: Global,
    walked: Walked,
    search: &WalkSearch<'_>,
    edges: &[u32],
) -> Result<Vec<u32>, Refusal>
    requires edges { AreEdgesOf search.now edges.now }
    requires connected { IsConnected (graph_of search.now) (listed edges.now) }
    requires walked { IsWalked search.now edges.now walked }
    ensures closed { IfOk result
        (λ walk. IsClosedEdgeWalk (graph_of search.now) (listed edges.now) walk.items) }
    ensures kept { IfOk result (λ walk. Extends walked.walk.items walk.items) }
    ensures memory { IsOkUnless result Refusal.Memory }
{
    let mut walk = walked.walk;
    let so_far = walk.as_slice();
    let way = way_on(alloc, search.graph, edges, so_far, so_far[0])?;
    walk.extend_from_slice(way.as_slice())?;
    Ok(walk)
}

/// Returns a shortest path from the end of `walk` to the state that the edge `next` leaves.
fn way_on(
    alloc: Global,
    graph: &Graph,
    edges: &[u32],
    walk: &[u32],
    next: u32,
) -> Result<Vec<u32>, Refusal>
    requires edges { AreEdges graph.now edges.now }
    requires connected { LeadOn graph.now edges.now }
    requires some { 0 < length walk.now }
    requires last { Contains edges.now (last_of walk.now) }
    requires next { Contains edges.now next }
    ensures leads { IfOk result
        (λ way. LeadsTo graph.now edges.now (last_of walk.now) next way.items) }
    ensures memory { IsOkUnless result Refusal.Memory }
{
    let last = walk[walk.len() - 1];
    match path(alloc, graph, edges, &[graph.to(last)], graph.from(next))? {
        Some(way) => Ok(way),
        None => unreachable!(),
    }
}
