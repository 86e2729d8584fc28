//! The edges of a union, as a text writes them.

ghost use Rattle.std.specs.Prelude.{◌≡◌, map, IfErr, IfOk};
ghost use Rattle.omega_hoa_edges.specs.Fitting.{IsLarge};
ghost use Rattle.omega_lang_runs.specs.Judging.{IsLabelWith};
ghost use Rattle.omega_lang_trim.specs.Refusing.{IsDeepLabel};
ghost use Rattle.omega_lang_trim.specs.Written.{edge_written};
ghost use Rattle.omega_lang_trim.specs.private.Writing.{HaveDeepLabel};
ghost use Rattle.omega_lang_union.specs.Parts.{edge_in as edge_of_part, edges_in as edges_of_part};
ghost use Rattle.omega_lang_union.specs.private.Operands.{part_of};

use crate::labels::label_in;
use crate::numbers::{guarded_marks, numbers_after};
use crate::operand::Operand;
use omega_hoa_automaton::{EdgeRef, State};
use omega_hoa_syntax::{RawEdge, RawEdges};
use omega_text::{Marks, Refusal};
use std::alloc::Global;

/// Returns the edges of `state` as the union has them. Fails with [TaskFault::TooLarge] if a label is deeper than
/// `MOST_DEPTH` as it is written.
pub(crate) fn edges_in(
    alloc: Global,
    operand: &Operand<'_>,
    state: &State,
) -> Result<RawEdges, Refusal>
    ensures edges { IfOk result (λ edges. edges ≡
        map edge_written (edges_of_part (part_of operand.now) state.now 0 state.now.edges)) }
    ensures err { IfErr result
        (IsLarge (HaveDeepLabel (edges_of_part (part_of operand.now) state.now 0 state.now.edges))) }
{
    let mut edges = RawEdges::new(alloc);
    for at in 0..state.edges.len() {
        let edge = state.edges.edge(at);
        let raw = edge_in(alloc, operand, state, at, &edge)?;
        edges.push(alloc, raw)?;
    }
    Ok(edges)
}

/// Returns `edge` of `state`, whose index is `at`, as the union has it. Fails with [TaskFault::TooLarge] if its label
/// is deeper than `MOST_DEPTH` as it is written.
fn edge_in(
    alloc: Global,
    operand: &Operand<'_>,
    state: &State,
    at: usize,
    edge: &EdgeRef<'_>,
) -> Result<RawEdge, Refusal>
    ensures edge { IfOk result
        (λ raw. raw ≡ edge_written (edge_of_part (part_of operand.now) state.now at edge.now)) }
    ensures err { IfErr result
        (IsLarge (IsLabelWith IsDeepLabel (edge_of_part (part_of operand.now) state.now at edge.now).label)) }
{
    let label = label_in(alloc, operand.places, state, at, edge)?;
    let targets = numbers_after(alloc, operand.states, edge.targets())?;
    let marks = guarded_marks(alloc, operand.sets, edge.marks(), operand.guard)?;
    Ok(RawEdge {
        label,
        targets,
        marks: Marks::of(marks),
    })
}
