//! Edges that carry a set of marks, or lack it.
ghost use Rattle.std.specs.Prelude.{◌≡◌, true, false, Contains, IfNone, IfOk, IfSome, IsOkUnless};
ghost use Rattle.omega_hoa_acceptance.specs.Acceptance.{holds};
ghost use Rattle.omega_graph.specs.Marks.{meets};
ghost use Rattle.omega_graph_accepting_walk.specs.private.Search.{HaveMarks, edges_without};
ghost use Rattle.omega_graph_accepting_walk.specs.private.Search.{meets_at, occurs_on};

use crate::search::WalkSearch;
use omega_text::{Numbers, Refusal};
use std::alloc::Global;

/// Whether `marks` has `set`, or lacks it if `negated`.
pub(crate) fn meets(marks: &Numbers, negated: bool, set: u32) -> bool
    ensures { result ≡ meets negated set marks.now }
{
    let held = holds(marks.as_slice(), set);
    if negated { !held } else { held }
}

/// Whether `set` is among `marks`.
fn holds(marks: &[u32], set: u32) -> bool
    ensures { result ≡ holds set marks.now }
{
    marks.iter().any(|mark| *mark == set)
}

/// Returns the first of `edges` that meets `set`, or none. Linear in the marks of the edges up to it.
pub(crate) fn first_edge_meeting(
    search: &WalkSearch<'_>,
    edges: &[u32],
    negated: bool,
    set: u32,
) -> Option<u32>
    requires edges { HaveMarks search.now edges.now }
    ensures none { IfNone result (occurs_on search.now edges.now negated set ≡ false) }
    ensures among { IfSome result (Contains edges.now) }
    ensures meets { IfSome result (λ edge. meets_at search.now negated set edge ≡ true) }
{
    for edge in edges {
        if meets(&search.marks[*edge as usize], negated, set) {
            return Some(*edge);
        }
    }
    None
}

/// Whether one of `edges` meets `set`. Linear in the marks of the edges up to the first that does.
pub(crate) fn occurs(search: &WalkSearch<'_>, edges: &[u32], negated: bool, set: u32) -> bool
    requires edges { HaveMarks search.now edges.now }
    ensures { result ≡ occurs_on search.now edges.now negated set }
{
    match first_edge_meeting(search, edges, negated, set) {
        Some(_edge) => true,
        None => false,
    }
}

/// Returns those `edges` that do not meet `set`.
pub(crate) fn without(
    alloc: Global,
    search: &WalkSearch<'_>,
    edges: &[u32],
    negated: bool,
    set: u32,
) -> Result<Vec<u32>, Refusal>
    requires edges { HaveMarks search.now edges.now }
    ensures left { IfOk result (λ left. left.items ≡ edges_without search.now edges.now negated set) }
    ensures memory { IsOkUnless result Refusal.Memory }
{
    let mut left = Vec::new(alloc);
    for edge in edges {
        if !meets(&search.marks[*edge as usize], negated, set) {
            left.push(*edge)?;
        }
    }
    Ok(left)
}
