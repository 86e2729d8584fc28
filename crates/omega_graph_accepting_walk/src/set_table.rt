//! A table of the sets that a list of edges carries, made once for all atoms.
ghost use Rattle.std.specs.Prelude.{◌≡◌, ◌≤◌, [], length, take, IfOk, IsOkUnless};
ghost use Rattle.omega_graph_accepting_walk.specs.private.Walks.{AreSetsOn, HaveMarksAdded};
ghost use Rattle.omega_graph_accepting_walk.specs.private.Search.{HaveMarks, graph_of, occurs_on};

use crate::meeting::occurs;
use crate::node::Node;
use crate::search::WalkSearch;
use omega_text::Refusal;
use std::alloc::Global;

/// The least bound on the length of the table, however few edges there are.
const FEW_SETS: usize = 64;

/// Returns for each set of the formula, from 0 on, whether one of `edges` is in it, as far as the table of [`no_sets`]
/// goes. Makes one pass over the marks of the edges.
pub(crate) fn set_table(
    alloc: Global,
    search: &WalkSearch<'_>,
    edges: &[u32],
) -> Result<Vec<bool>, Refusal>
    requires edges { HaveMarks search.now edges.now }
    ensures sets { IfOk result (λ sets. AreSetsOn (graph_of search.now) edges.now sets.items) }
    ensures memory { IsOkUnless result Refusal.Memory }
{
    let mut sets = no_sets(alloc, search, edges.len())?;
    add_edges(&mut sets, search, edges, 0);
    Ok(sets)
}

/// Returns the table of no edges, for edges of which there are up to `count`. It has at most `count` entries, or 64 if
/// that is less; sets past it are not in it.
pub(crate) fn no_sets(
    alloc: Global,
    search: &WalkSearch<'_>,
    count: usize,
) -> Result<Vec<bool>, Refusal>
    ensures sets { IfOk result (λ sets. AreSetsOn (graph_of search.now) [] sets.items) }
    ensures memory { IsOkUnless result Refusal.Memory }
{
    let length = set_count(search.nodes).min(count.max(FEW_SETS));
    Ok(vec![in alloc; false; length]?)
}

/// Takes the `edges` from the index `from` on into the table `sets` of those before. Makes one pass over their marks.
pub(crate) fn add_edges(sets: &mut Vec<bool>, search: &WalkSearch<'_>, edges: &[u32], from: usize)
    requires edges { HaveMarks search.now edges.now }
    requires from { from ≤ length edges.now }
    requires before { AreSetsOn (graph_of search.now) (take from edges.now) sets.old.items }
    ensures sets { AreSetsOn (graph_of search.now) edges.now sets.new.items }
{
    for at in from..edges.len() {
        add_marks(sets, search.marks[edges[at] as usize].as_slice());
    }
}

/// Sets the flag of each set that is in `marks`, as far as `sets` goes.
fn add_marks(sets: &mut Vec<bool>, marks: &[u32])
    ensures count { length sets.new.items ≡ length sets.old.items }
    ensures sets { HaveMarksAdded marks.now sets.old.items sets.new.items }
{
    for mark in marks {
        if (*mark as usize) < sets.len() {
            sets[*mark as usize] = true;
        }
    }
}

/// Returns one more than the greatest set of the atoms among `nodes`, or 0 if there is no atom.
fn set_count(nodes: &[Node]) -> usize {
    let mut count = 0;
    for node in nodes {
        if let Node::Inf(_, set) | Node::Fin(_, set) = *node {
            count = count.max(set as usize + 1);
        }
    }
    count
}

/// Whether one of `edges` meets `set`, read from the table `sets` if that has the answer.
pub(crate) fn occurs_by(
    search: &WalkSearch<'_>,
    edges: &[u32],
    sets: &[bool],
    negated: bool,
    set: u32,
) -> bool
    requires edges { HaveMarks search.now edges.now }
    requires sets { AreSetsOn (graph_of search.now) edges.now sets.now }
    ensures { result ≡ occurs_on search.now edges.now negated set }
{
    if !negated && (set as usize) < sets.len() {
        sets[set as usize]
    } else {
        occurs(search, edges, negated, set)
    }
}
