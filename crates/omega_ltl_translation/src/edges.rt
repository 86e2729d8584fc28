//! The edges of a state, as a text writes them.

ghost use Rattle.std.specs.Prelude.{◌≡◌, IfOk, IsOkUnless, OnOk};
ghost use Rattle.std.specs.List.{AllZip};
ghost use Rattle.omega_hoa_automaton.specs.Meaning.{written_marks};
ghost use Rattle.omega_ltl_translation.specs.private.Joining.{AreFilled};
ghost use Rattle.omega_ltl_translation.specs.private.Labels.{AreFew};
ghost use Rattle.omega_ltl_translation.specs.private.Written.{AddsMark, AreMarksOf, AreWrittenEdges};
ghost use Rattle.omega_ltl_translation.specs.private.Written.{IsWrittenEdge};

use crate::graph::GraphEdge;
use crate::joining::{JoinedEdge, joined_edges};
use crate::labels::label_of;
use omega_hoa_syntax::{RawEdge, RawEdges};
use omega_ltl_shapes::has_bit;
use omega_text::{Marks, Numbers, Refusal};
use std::alloc::Global;

/// Returns the edges of a state, those with one target and the same marks joined.
pub(crate) fn edges_of(alloc: Global, edges: &[GraphEdge], sets: u32) -> Result<RawEdges, Refusal>
    ensures edges { IfOk result (AreWrittenEdges sets edges.now) }
    ensures memory { IsOkUnless result Refusal.Memory }
{
    let joined = joined_edges(alloc, edges)?;
    written_edges(alloc, joined.as_slice(), sets)
}

/// Returns joined edges, in their order.
fn written_edges(alloc: Global, joined: &[JoinedEdge], sets: u32) -> Result<RawEdges, Refusal>
    requires { AreFilled joined.now }
    ensures edges { IfOk result (AllZip (IsWrittenEdge sets) joined.now) }
    ensures memory { IsOkUnless result Refusal.Memory }
{
    let mut written = RawEdges::new(alloc);
    for edge in joined {
        let one = written_edge(alloc, edge, sets)?;
        written.push(alloc, one)?;
    }
    Ok(written)
}

/// Returns an edge.
fn written_edge(alloc: Global, edge: &JoinedEdge, sets: u32) -> Result<RawEdge, Refusal>
    requires { AreFew edge.now.cubes.items }
    ensures edge { IfOk result (IsWrittenEdge sets edge.now) }
    ensures memory { IsOkUnless result Refusal.Memory }
{
    let label = label_of(alloc, edge.cubes.as_slice())?;
    let marks = marks_of(alloc, edge.late, sets)?;
    Ok(RawEdge {
        label: Some(label),
        targets: Numbers::one(edge.target),
        marks: Marks::of(marks),
    })
}

/// Returns the sets in which an edge is not late.
fn marks_of(alloc: Global, late: u64, sets: u32) -> Result<Numbers, Refusal>
    ensures marks { IfOk result (AreMarksOf sets late) }
    ensures memory { IsOkUnless result Refusal.Memory }
{
    let mut marks = Numbers::new();
    for set in 0..sets {
        push_mark(alloc, late, set, &mut marks)?;
    }
    Ok(marks)
}

/// Appends a set, if an edge is not late in it.
fn push_mark(alloc: Global, late: u64, set: u32, marks: &mut Numbers) -> Result<(), Refusal>
    ensures ok { OnOk result (AddsMark late set marks.old marks.new) }
    ensures memory { IsOkUnless result Refusal.Memory }
{
    if has_bit(late, set) {
        return Ok(());
    }
    marks.push(alloc, set)?;
    Ok(())
}
