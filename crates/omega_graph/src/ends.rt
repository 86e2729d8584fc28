//! The ends of the edges of a list.
ghost use Rattle.std.specs.Prelude.{◌≡◌, IfOk};
ghost use Rattle.omega_graph.specs.Graph.{AreEdges, AreStates};
ghost use Rattle.omega_graph.specs.private.Ends.{enters_in, leaves_in};

use crate::graph::Graph;
use std::alloc::{AllocError, Global};

/// Returns the state that each of `edges` leaves.
pub(crate) fn leaves_of(alloc: Global, graph: &Graph, edges: &[u32]) -> Result<Vec<u32>, AllocError>
    requires { AreEdges graph.now edges.now }
    ensures leaves { IfOk result (λ leaves. leaves.items ≡ leaves_in graph.now edges.now) }
    ensures inside { IfOk result (λ leaves. AreStates graph.now leaves.items) }
{
    let mut leaves = Vec::with_capacity(alloc, edges.len())?;
    for edge in edges {
        leaves.push(graph.from(*edge))?;
    }
    Ok(leaves)
}

/// Returns the state that each of `edges` enters.
pub(crate) fn enters_of(alloc: Global, graph: &Graph, edges: &[u32]) -> Result<Vec<u32>, AllocError>
    requires { AreEdges graph.now edges.now }
    ensures enters { IfOk result (λ enters. enters.items ≡ enters_in graph.now edges.now) }
    ensures inside { IfOk result (λ enters. AreStates graph.now enters.items) }
{
    let mut enters = Vec::with_capacity(alloc, edges.len())?;
    for edge in edges {
        enters.push(graph.to(*edge))?;
    }
    Ok(enters)
}
