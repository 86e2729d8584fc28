//! Components by two searches for each edge: quadratic, and without a suggestion.
ghost use Rattle.std.specs.Prelude.{◌↔◌, ◌<◌, length, All, IfOk, IsTrue};
ghost use Rattle.omega_graph.specs.private.Ends.{AreInside, ArePaired};
ghost use Rattle.omega_graph.specs.private.Searching.{mark_at};
ghost use Rattle.omega_graph.specs.private.Classes.{AreComponentsOf, IsFirstClassOf};
ghost use Rattle.omega_graph.specs.private.Classes.{IsFirstPassed, IsPassedBy};

use crate::edge_components::EdgeComponents;
use crate::edges::ListedEdges;
use crate::searching::{BreadthSearch, search_from};
use std::alloc::{AllocError, Global};
use std::slice;

/// Returns the components of `edges`. Makes two searches for each edge.
pub(crate) fn plain_edge_components(
    alloc: Global,
    edges: &ListedEdges<'_>,
) -> Result<EdgeComponents, AllocError>
    requires paired { ArePaired edges.now }
    requires inside { AreInside edges.now }
    ensures { IfOk result (AreComponentsOf edges.now) }
{
    let mut edge_components = EdgeComponents::new(alloc);
    for index in 0..edges.numbers.len() {
        let edge_component = edge_component_at(alloc, edges, index)?;
        edge_components.add(edge_component.as_slice())?;
    }
    Ok(edge_components)
}

/// Returns the edges that the one at `index` leads to and that lead to it, or none if one of them comes before it.
fn edge_component_at(
    alloc: Global,
    edges: &ListedEdges<'_>,
    index: usize,
) -> Result<Vec<u32>, AllocError>
    requires index { index < length edges.now.numbers.now }
    requires paired { ArePaired edges.now }
    requires inside { AreInside edges.now }
    ensures { IfOk result (λ edge_component.
        IsFirstClassOf edges.now index edge_component.items) }
{
    let ahead = search_from(
        alloc,
        edges.count,
        edges.leaves,
        edges.enters,
        slice::from_ref(&edges.enters[index]),
    )?;
    let behind = search_from(
        alloc,
        edges.count,
        edges.enters,
        edges.leaves,
        slice::from_ref(&edges.leaves[index]),
    )?;
    let edge_component = passed_edges(alloc, &ahead, &behind, edges, index)?;
    Ok(edge_component)
}

/// Returns the edges that leave a state met by `ahead` and enter one met by `behind`, or none if one of them comes
/// before `index`.
fn passed_edges(
    alloc: Global,
    ahead: &BreadthSearch,
    behind: &BreadthSearch,
    edges: &ListedEdges<'_>,
    index: usize,
) -> Result<Vec<u32>, AllocError>
    requires paired { ArePaired edges.now }
    requires leaves { All (λ state. state < length ahead.now.marks) edges.now.leaves.now }
    requires enters { All (λ state. state < length behind.now.marks) edges.now.enters.now }
    ensures { IfOk result (λ edge_component. IsFirstPassed edges.now.numbers.now
        (IsPassedBy edges.now ahead.now behind.now) index edge_component.items) }
{
    let mut edge_component = Vec::new(alloc);
    for other in 0..edges.numbers.len() {
        if is_passed(ahead, behind, edges.leaves[other], edges.enters[other]) {
            if other < index {
                return Ok(Vec::new(alloc));
            }
            edge_component.push(edges.numbers[other])?;
        }
    }
    Ok(edge_component)
}

/// Whether `ahead` met the state `leave`, and `behind` the state `enter`.
fn is_passed(ahead: &BreadthSearch, behind: &BreadthSearch, leave: u32, enter: u32) -> bool
    requires leave { leave < length ahead.now.marks }
    requires enter { enter < length behind.now.marks }
    ensures { IsTrue result
        ↔ (IsTrue (mark_at ahead.now.marks leave) × IsTrue (mark_at behind.now.marks enter)) }
{
    ahead.has_met(leave) && behind.has_met(enter)
}
