//! Walks of some edges.
ghost use Rattle.std.specs.Prelude.{◌<◌, IfOk, IsOkUnless};
ghost use Rattle.omega_graph.specs.Found.{IfFound, IfNothing};
ghost use Rattle.omega_graph.specs.Graph.{AreEdges, AreStates};
ghost use Rattle.omega_graph.specs.Reaching.{IsOutOfReach, IsWalkTo};
ghost use Rattle.omega_graph.specs.private.Searching.{IsSearchFor};

use crate::ends::{enters_of, leaves_of};
use crate::graph::Graph;
use crate::searching::{BreadthSearch, search_to};
use omega_text::Refusal;
use std::alloc::{AllocError, Global};

/// Returns a walk in `edges` from one of `sources` to `target`, or none if `target` is out of reach. Linear in the
/// graph's states, `edges` and `sources`.
///
/// It is a breadth-first search, so the walk is a shortest one, and empty if `target` is one of `sources`. No clause
/// says so.
pub fn path(
    alloc: Global,
    graph: &Graph,
    edges: &[u32],
    sources: &[u32],
    target: u32,
) -> Result<Option<Vec<u32>>, Refusal>
    requires edges { AreEdges graph.now edges.now }
    requires sources { AreStates graph.now sources.now }
    requires target { target < graph.now.states }
    ensures walk { IfFound result
        (λ walk. IsWalkTo graph.now edges.now sources.now target walk.items) }
    ensures none { IfNothing result (IsOutOfReach graph.now edges.now sources.now target) }
    ensures memory { IsOkUnless result Refusal.Memory }
{
    let search = search_for(alloc, graph, edges, sources, target)?;
    match search.index_of(target) {
        None => Ok(None),
        Some(index) => {
            let walk = search.walk_to(alloc, edges, index)?;
            Ok(Some(walk))
        }
    }
}

/// Searches the states that `edges` reach from `sources`, until it meets `target`.
fn search_for(
    alloc: Global,
    graph: &Graph,
    edges: &[u32],
    sources: &[u32],
    target: u32,
) -> Result<BreadthSearch, AllocError>
    requires edges { AreEdges graph.now edges.now }
    requires sources { AreStates graph.now sources.now }
    requires target { target < graph.now.states }
    ensures { IfOk result (IsSearchFor graph.now edges.now sources.now target) }
{
    let leaves = leaves_of(alloc, graph, edges)?;
    let enters = enters_of(alloc, graph, edges)?;
    let leaves = leaves.as_slice();
    let enters = enters.as_slice();
    let count = graph.states() as usize;
    let search = search_to(alloc, count, leaves, enters, sources, target)?;
    Ok(search)
}
