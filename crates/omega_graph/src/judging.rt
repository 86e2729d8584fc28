//! The judge of suggested components. No edge may lead to a component of a greater number, so that each closed walk
//! stays in one component. Two numberings of the states show that the edges of a component lead to each other. By the
//! first, each state but one of a component must be entered from one with a lesser number. By the second, it must have
//! an edge to one with a lesser number.
ghost use Rattle.std.specs.Prelude.{◌≡◌, ◌<◌, length, All, IfOk, IfSome, IsTrue, OnOk};
ghost use Rattle.omega_graph.specs.Found.{IfFound};
ghost use Rattle.omega_graph.specs.private.Ends.{ArePaired};
ghost use Rattle.omega_graph.specs.private.Searching.{mark_at};
ghost use Rattle.omega_graph.specs.private.Classes.{AreComponentsOf};
ghost use Rattle.omega_graph.specs.private.Judging.{AreBucketsOf, AreComponentsOfKept, AreTied};
ghost use Rattle.omega_graph.specs.private.Judging.{IsComponentOf, IsKeptAmong, IsKeptBelow};
ghost use Rattle.omega_graph.specs.private.Judging.{IsPicked, IsTied, JoinsComponents};

use crate::edge_components::EdgeComponents;
use crate::edges::ListedEdges;
use crate::entering::entered_flags;
use crate::kept::Kept;
use crate::links::Links;
use crate::suggesting::suggested_components;
use crate::suggestion::SuggestedComponents;
use omega_graph_search::{NONE, NumberTable, number_of};
use std::alloc::{AllocError, Global};

/// Returns the components of `edges` if the judge confirms the suggestion, else none. Linear.
pub(crate) fn judged_edge_components(
    alloc: Global,
    edges: &ListedEdges<'_>,
) -> Result<Option<EdgeComponents>, AllocError>
    requires paired { ArePaired edges.now }
    ensures { IfFound result (AreComponentsOf edges.now) }
{
    let suggestion = suggested_components(alloc, edges.count, edges.leaves, edges.enters)?;
    confirmed_components(alloc, &suggestion, edges)
}

/// Returns the suggested components of `edges` if they are confirmed, else none.
fn confirmed_components(
    alloc: Global,
    suggestion: &SuggestedComponents,
    edges: &ListedEdges<'_>,
) -> Result<Option<EdgeComponents>, AllocError>
    requires paired { ArePaired edges.now }
    ensures { IfFound result (AreComponentsOf edges.now) }
{
    let components = suggestion.components.as_slice();
    let found = kept_in(alloc, components, edges)?;
    let Some(kept) = found else {
        return Ok(None);
    };
    let edge_components = joined_edge_components(alloc, suggestion, &kept)?;
    Ok(edge_components)
}

/// Returns the kept edges by component, or none if the edges of some component are not shown to lead to each other.
fn joined_edge_components(
    alloc: Global,
    suggestion: &SuggestedComponents,
    kept: &Kept,
) -> Result<Option<EdgeComponents>, AllocError>
    requires { IsKeptBelow (length suggestion.now.components.items) kept.now }
    ensures { IfFound result (AreComponentsOfKept suggestion.now kept.now) }
{
    let joined = are_joined(alloc, suggestion, kept)?;
    if !joined {
        return Ok(None);
    }
    let components = suggestion.components.as_slice();
    let edge_components = components_by_key(
        alloc,
        components.len(),
        kept.keys.as_slice(),
        kept.edges.as_slice(),
    )?;
    Ok(Some(edge_components))
}

/// Returns the edges that stay in a component, or none if an edge leads to a component of a greater number or to none.
fn kept_in(
    alloc: Global,
    components: &[u32],
    edges: &ListedEdges<'_>,
) -> Result<Option<Kept>, AllocError>
    requires paired { ArePaired edges.now }
    ensures kept { IfFound result (IsKeptAmong components.now edges.now) }
    ensures below { IfFound result (IsKeptBelow (length components.now)) }
{
    let mut kept = Kept::with_capacity(alloc, edges.numbers.len())?;
    for index in 0..edges.numbers.len() {
        let Some(from) = component_of(components, edges.leaves[index]) else {
            return Ok(None);
        };
        let Some(to) = component_of(components, edges.enters[index]) else {
            return Ok(None);
        };
        if from < to {
            return Ok(None);
        }
        if from == to {
            kept.keep(
                edges.numbers[index],
                edges.leaves[index],
                edges.enters[index],
                from,
            )?;
        }
    }
    Ok(Some(kept))
}

/// Returns the component of `state`, or none if the state or that number is not below the length of `components`.
fn component_of(components: &[u32], state: u32) -> Option<u32>
    ensures { IfSome result (IsComponentOf components.now state) }
{
    let key = *components.get(state as usize)?;
    if (key as usize) < components.len() {
        Some(key)
    } else {
        None
    }
}

/// Whether in each component one state leads to all others and all others lead to it, so that its edges lead to each
/// other.
fn are_joined(
    alloc: Global,
    suggestion: &SuggestedComponents,
    kept: &Kept,
) -> Result<bool, AllocError>
    requires { IsKeptBelow (length suggestion.now.components.items) kept.now }
    ensures { IfOk result (λ joined. IsTrue joined → JoinsComponents suggestion.now kept.now) }
{
    let components = suggestion.components.as_slice();
    let leaves = kept.leaves.as_slice();
    let enters = kept.enters.as_slice();
    let count = components.len();
    let ahead = entered_flags(alloc, count, suggestion.orders.as_slice(), leaves, enters)?;
    let behind = entered_flags(alloc, count, suggestion.ranks.as_slice(), enters, leaves)?;
    let ahead = ahead.as_slice();
    let behind = behind.as_slice();
    let roots = roots_of(alloc, components, ahead, behind)?;
    Ok(are_tied(components, roots.as_slice(), ahead, behind))
}

/// Returns for each component its last state that is unmarked in one of the two lists, or `NONE` if there is no such
/// state.
fn roots_of(
    alloc: Global,
    components: &[u32],
    ahead: &[bool],
    behind: &[bool],
) -> Result<Vec<u32>, AllocError> {
    let mut roots = NumberTable::filled(alloc, components.len(), NONE)?;
    for (state, key) in components.iter().enumerate() {
        if !(is_set(ahead, state) && is_set(behind, state)) {
            roots.put(*key, number_of(state));
        }
    }
    Ok(roots.into_items())
}

/// Whether each state is the root of its component, or marked in both lists.
fn are_tied(components: &[u32], roots: &[u32], ahead: &[bool], behind: &[bool]) -> bool
    ensures { IsTrue result → AreTied components.now roots.now ahead.now behind.now }
{
    for state in 0..components.len() {
        if !is_tied(components, roots, ahead, behind, state) {
            return false;
        }
    }
    true
}

/// Whether `state` is the root of its component, or marked in both lists.
fn is_tied(components: &[u32], roots: &[u32], ahead: &[bool], behind: &[bool], state: usize) -> bool
    requires { state < length components.now }
    ensures { IsTrue result → IsTied components.now roots.now ahead.now behind.now state }
{
    if is_set(ahead, state) && is_set(behind, state) {
        return true;
    }
    match roots.get(components[state] as usize) {
        Some(root) => *root as usize == state,
        None => false,
    }
}

/// Whether `state` is marked.
fn is_set(flags: &[bool], state: usize) -> bool
    ensures { result ≡ mark_at flags.now state }
{
    match flags.get(state) {
        Some(flag) => *flag,
        None => false,
    }
}

/// Returns a component for each key that an edge has. Linear.
fn components_by_key(
    alloc: Global,
    count: usize,
    keys: &[u32],
    edges: &[u32],
) -> Result<EdgeComponents, AllocError>
    requires even { length keys.now ≡ length edges.now }
    requires keys { All (λ key. key < count) keys.now }
    ensures { IfOk result (AreBucketsOf keys.now edges.now count) }
{
    let links = Links::new(alloc, count, keys)?;
    let mut edge_component = Vec::new(alloc);
    let mut edge_components = EdgeComponents::new(alloc);
    for key in 0..count {
        pick(&links, edges, key, &mut edge_component)?;
        edge_components.add(edge_component.as_slice())?;
    }
    Ok(edge_components)
}

/// Makes a component of the edges of a key.
fn pick(
    links: &Links<'_>,
    edges: &[u32],
    key: usize,
    edge_component: &mut Vec<u32>,
) -> Result<(), AllocError>
    requires key { key < links.now.count }
    requires even { length links.now.states ≡ length edges.now }
    ensures { OnOk result (IsPicked links.now.states edges.now key edge_component.new.items) }
{
    edge_component.clear();
    let mut left = links.last(key);
    while left > 0 {
        let index = left as usize - 1;
        edge_component.push(edges[index])?;
        left = links.before(index);
    }
    Ok(())
}
