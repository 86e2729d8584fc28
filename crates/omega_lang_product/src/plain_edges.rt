//! The edges of a state as a product sees them.

ghost use Rattle.std.specs.Prelude.{◌≡◌, ◌+◌, ◌++◌, IfErr, IfOk, IsOkUnless, OnOk, map};
ghost use Rattle.omega_lang_product.specs.Refusing.{HasUnfitEdge};
ghost use Rattle.omega_lang_product.specs.PlainEdges.{plain_edge_of as plain_edge_of_edge};
ghost use Rattle.omega_lang_product.specs.private.Room.{HasRoom, HaveRoom};
ghost use Rattle.omega_lang_product.specs.private.Tables.{label_in_product, row_of, view_of};
ghost use Rattle.omega_hoa_edges.specs.Fitting.{IsLarge, IsUnfit};

use crate::plain_edge::PlainEdge;
use crate::renumbering::Renumbering;
use crate::tabled::Tabled;
use omega_hoa_automaton::{EdgeRef, State};
use omega_hoa_edges::{edge_label, judge_size};
use omega_hoa_label::Label;
use omega_text::{Numbers, Refusal, Seq};
use std::alloc::Global;

/// Returns the edges of `state` as the product sees them. Fails with [TaskFault::TooLarge] if a label is too deep or
/// too large.
pub(crate) fn plain_edges_of(
    alloc: Global,
    state: &State,
    renumbering: &Renumbering<'_>,
) -> Result<Seq<Tabled>, Refusal>
    requires { HasRoom renumbering.now.before state.now }
    ensures ok { IfOk result (λ row. row ≡ row_of (view_of renumbering.now) state.now) }
    ensures err { IfErr result (IsLarge (HasUnfitEdge (row_of (view_of renumbering.now) state.now))) }
{
    let mut row = Vec::with_capacity(alloc, state.edges.len())?;
    for at in 0..state.edges.len() {
        let edge = state.edges.edge(at);
        let plain_edge = plain_edge_of(alloc, state, &edge, at, renumbering)?;
        let tabled = Tabled::of(alloc, plain_edge)?;
        row.push(tabled)?;
    }
    Ok(Seq::from_vec(row))
}

/// Returns the edge `edge` of `state`, whose index is `at`, as the product sees it. Fails with [TaskFault::TooLarge] if
/// its label is too deep or too large.
fn plain_edge_of<'a>(
    alloc: Global,
    state: &'a State,
    edge: &EdgeRef<'a>,
    at: usize,
    renumbering: &Renumbering<'_>,
) -> Result<PlainEdge, Refusal>
    requires of_state { HaveRoom renumbering.now.before state.now.marks }
    requires of_edge { HaveRoom renumbering.now.before edge.now.marks }
    ensures ok { IfOk result (λ plain_edge.
        plain_edge ≡ plain_edge_of_edge (view_of renumbering.now) state.now at edge.now) }
    ensures err { IfErr result
        (IsUnfit (label_in_product renumbering.now.places.now state.now at edge.now)) }
{
    let label = label_of(alloc, state, edge, at, renumbering.places)?;
    judge_size(&label)?;
    let target = edge.targets().first().copied().unwrap_or(0);
    let marks = marks_after(
        alloc,
        state.marks.as_slice(),
        edge.marks(),
        renumbering.before,
    )?;
    Ok(PlainEdge {
        label,
        target,
        marks,
    })
}

/// Returns the label over the joined propositions of the edge `edge` of `state`, whose index is `at`.
fn label_of<'a>(
    alloc: Global,
    state: &'a State,
    edge: &EdgeRef<'a>,
    at: usize,
    places: &[u32],
) -> Result<Label, Refusal>
    ensures ok { IfOk result (λ label. label ≡ label_in_product places.now state.now at edge.now) }
    ensures memory { IsOkUnless result Refusal.Memory }
{
    let label = edge_label(alloc, places.len(), state, edge, at)?;
    let moved = label.get().over_propositions(alloc, places)?;
    Ok(moved)
}

/// Returns the marks of a state and of an edge, each after `before` other sets.
fn marks_after(
    alloc: Global,
    of_state: &[u32],
    of_edge: &[u32],
    before: u32,
) -> Result<Numbers, Refusal>
    requires of_state { HaveRoom before of_state.now }
    requires of_edge { HaveRoom before of_edge.now }
    ensures ok { IfOk result
        (λ marks. marks ≡ map (λ set. before + set) (of_state.now ++ of_edge.now)) }
    ensures memory { IsOkUnless result Refusal.Memory }
{
    let mut marks = Numbers::new();
    append_moved(alloc, &mut marks, of_state, before)?;
    append_moved(alloc, &mut marks, of_edge, before)?;
    Ok(marks)
}

/// Appends `sets`, each after `before` other sets.
fn append_moved(
    alloc: Global,
    marks: &mut Numbers,
    sets: &[u32],
    before: u32,
) -> Result<(), Refusal>
    requires { HaveRoom before sets.now }
    ensures ok { OnOk result (marks.new ≡ marks.old ++ map (λ set. before + set) sets.now) }
    ensures memory { IsOkUnless result Refusal.Memory }
{
    for set in sets {
        marks.push(alloc, before + *set)?;
    }
    Ok(())
}
