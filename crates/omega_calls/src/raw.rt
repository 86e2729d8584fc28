//! Edges as they are written.
use crate::lists::{put_all, put_answer};
use omega_hoa_label::RawLabel;
use omega_hoa_syntax::{RawEdge, RawEdges};
use omega_text::{Marks, Numbers, Refusal};
use std::alloc::Global;

/// Returns two short edges and one with a label, in as much memory as they need.
pub(crate) fn edges_written(alloc: Global) -> Result<Vec<u8>, Refusal> {
    let mut edges = RawEdges::new(alloc);
    match push_three(alloc, &mut edges) {
        Ok(()) => written_edges(alloc, &edges.fitted_edges(alloc)?),
        Err(refusal) => Err(refusal),
    }
}

fn push_three(alloc: Global, edges: &mut RawEdges) -> Result<(), Refusal> {
    push_again(alloc, edges, 1, false)?;
    push_again(alloc, edges, 2, false)?;
    push_again(alloc, edges, 3, true)
}

/// Adds an edge. A refused request adds none, so that it may be added once more.
fn push_again(
    alloc: Global,
    edges: &mut RawEdges,
    target: u32,
    labelled: bool,
) -> Result<(), Refusal> {
    let count = edges.len();
    match push(alloc, edges, edge(alloc, target, labelled)) {
        Ok(()) => Ok(()),
        Err(_) if edges.len() != count => Err(Refusal::Io),
        Err(_) => push(alloc, edges, edge(alloc, target, labelled)),
    }
}

fn push(
    alloc: Global,
    edges: &mut RawEdges,
    edge: Result<RawEdge, Refusal>,
) -> Result<(), Refusal> {
    match edge {
        Ok(edge) => Ok(edges.push(alloc, edge)?),
        Err(refusal) => Err(refusal),
    }
}

fn edge(alloc: Global, target: u32, labelled: bool) -> Result<RawEdge, Refusal> {
    Ok(RawEdge {
        label: label(alloc, labelled)?,
        targets: Numbers::one(target),
        marks: Marks::absent(),
    })
}

fn label(alloc: Global, labelled: bool) -> Result<Option<RawLabel>, Refusal> {
    if labelled {
        Ok(Some(RawLabel::constant(alloc, true)?))
    } else {
        Ok(None)
    }
}

/// Returns the targets of each edge, and whether it has a label.
fn written_edges(alloc: Global, edges: &RawEdges) -> Result<Vec<u8>, Refusal> {
    let mut out = Vec::new(alloc);
    for at in 0..edges.len() {
        let edge = edges.edge(at);
        put_all(&mut out, edge.targets())?;
        put_answer(&mut out, edge.label().is_some())?;
    }
    Ok(out)
}
