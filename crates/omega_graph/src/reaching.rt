//! The states that some edges reach.
ghost use Rattle.std.specs.Prelude.{◌≡◌, vec_len, IfOk, IsOkUnless};
ghost use Rattle.omega_graph.specs.Graph.{AreEdges, AreStates};
ghost use Rattle.omega_graph.specs.Reaching.{TellReached};
ghost use Rattle.omega_graph.specs.private.Searching.{IsSearchOf};

use crate::ends::{enters_of, leaves_of};
use crate::graph::Graph;
use crate::searching::{BreadthSearch, search_from};
use omega_text::Refusal;
use std::alloc::{AllocError, Global};

/// Returns for each state whether `edges` lead to it from one of `sources`. A source reaches itself. Linear in the
/// graph's states, `edges` and `sources`.
pub fn reached_flags(
    alloc: Global,
    graph: &Graph,
    edges: &[u32],
    sources: &[u32],
) -> Result<Vec<bool>, Refusal>
    requires edges { AreEdges graph.now edges.now }
    requires sources { AreStates graph.now sources.now }
    ensures count { IfOk result (λ reached. vec_len reached ≡ graph.now.states) }
    ensures reached { IfOk result
        (λ reached. TellReached graph.now edges.now sources.now reached.items) }
    ensures memory { IsOkUnless result Refusal.Memory }
{
    let search = search_edges(alloc, graph, edges, sources)?;
    Ok(search.into_marks())
}

/// Searches the states that `edges` reach from `sources`.
fn search_edges(
    alloc: Global,
    graph: &Graph,
    edges: &[u32],
    sources: &[u32],
) -> Result<BreadthSearch, AllocError>
    requires edges { AreEdges graph.now edges.now }
    requires sources { AreStates graph.now sources.now }
    ensures { IfOk result (IsSearchOf graph.now edges.now sources.now) }
{
    let leaves = leaves_of(alloc, graph, edges)?;
    let enters = enters_of(alloc, graph, edges)?;
    let count = graph.states() as usize;
    let search = search_from(alloc, count, leaves.as_slice(), enters.as_slice(), sources)?;
    Ok(search)
}
