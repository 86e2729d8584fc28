//! The edges that stay, as a text writes them.

ghost use Rattle.std.specs.Prelude.{◌≡◌, ◌++◌, map, IfErr, IfOk, OnOk};
ghost use Rattle.std.specs.List.{list_all};
ghost use Rattle.omega_lang_runs.specs.Judging.{IsLabelWith};
ghost use Rattle.omega_hoa_edges.specs.Fitting.{IsLarge};
ghost use Rattle.omega_lang_trim.specs.Refusing.{IsDeepLabel};
ghost use Rattle.omega_lang_trim.specs.Trimmed.{edge_stays, edges_kept, keeps_labels as keeps_labels_among};
ghost use Rattle.omega_lang_trim.specs.Written.{edge_written};
ghost use Rattle.omega_lang_trim.specs.private.Placed.{IsFew};
ghost use Rattle.omega_lang_trim.specs.private.Writing.{HaveDeepLabel, kept_alone, kept_by};

use crate::keeping::Keeping;
use crate::labels::kept_label;
use crate::numbers::{all_stay, new_numbers_of};
use indexmap::IndexSet;
use omega_hoa_automaton::{EdgeRef, Refusal, State};
use omega_hoa_syntax::{RawEdge, RawEdges};
use omega_text::{Marks, Numbers};
use std::alloc::Global;

/// Returns the edges of `state` that stay, over `count` propositions. Fails with [TaskFault::TooLarge] if a label is
/// deeper than `MOST_DEPTH` as it is written.
pub(crate) fn kept_edges(
    alloc: Global,
    kept: &IndexSet<u32>,
    count: usize,
    state: &State,
) -> Result<RawEdges, Refusal>
    requires { IsFew kept.now.keys }
    ensures edges { IfOk result (λ edges. edges ≡ map edge_written (edges_kept kept.now.keys
        (keeps_labels_among kept.now.keys state.now) count state.now 0 state.now.edges)) }
    ensures err { IfErr result (IsLarge (HaveDeepLabel (edges_kept kept.now.keys
        (keeps_labels_among kept.now.keys state.now) count state.now 0 state.now.edges))) }
{
    let keeping = Keeping {
        kept,
        count,
        state,
        as_written: keeps_labels(kept, state),
    };
    let mut edges = RawEdges::new(alloc);
    for at in 0..state.edges.len() {
        let edge = state.edges.edge(at);
        push_kept(alloc, &mut edges, &keeping, at, &edge)?;
    }
    Ok(edges)
}

/// Appends `edge`, whose index is `at`, if it stays. Fails with [TaskFault::TooLarge] if its label is deeper than
/// `MOST_DEPTH` as it is written.
fn push_kept(
    alloc: Global,
    edges: &mut RawEdges,
    keeping: &Keeping<'_>,
    at: usize,
    edge: &EdgeRef<'_>,
) -> Result<(), Refusal>
    requires { IsFew keeping.now.kept.now.keys }
    ensures edges { OnOk result
        (edges.new ≡ edges.old ++ map edge_written (kept_alone keeping.now at edge.now)) }
    ensures err { IfErr result (IsLarge (HaveDeepLabel (kept_alone keeping.now at edge.now))) }
{
    if !all_stay(keeping.kept, edge.targets()) {
        return Ok(());
    }
    let raw = kept_edge(alloc, keeping, at, edge)?;
    edges.push(alloc, raw)?;
    Ok(())
}

/// Whether the labels of the edges of `state` stay as they are: it has a label, or all of its edges stay.
fn keeps_labels(kept: &IndexSet<u32>, state: &State) -> bool
    ensures { result ≡ keeps_labels_among kept.now.keys state.now }
{
    match state.label {
        Some(_) => true,
        None => all_edges_stay(kept, state),
    }
}

/// Whether all edges of `state` stay.
fn all_edges_stay(kept: &IndexSet<u32>, state: &State) -> bool
    ensures { result ≡ list_all (edge_stays kept.now.keys) state.now.edges }
{
    for at in 0..state.edges.len() {
        if !all_stay(kept, state.edges.edge(at).targets()) {
            return false;
        }
    }
    true
}

/// Returns `edge`, whose index is `at`, as it stays. Fails with [TaskFault::TooLarge] if its label is deeper than
/// `MOST_DEPTH` as it is written.
fn kept_edge(
    alloc: Global,
    keeping: &Keeping<'_>,
    at: usize,
    edge: &EdgeRef<'_>,
) -> Result<RawEdge, Refusal>
    requires { IsFew keeping.now.kept.now.keys }
    ensures edge { IfOk result (λ raw. raw ≡ edge_written (kept_by keeping.now at edge.now)) }
    ensures err { IfErr result
        (IsLarge (IsLabelWith IsDeepLabel (kept_by keeping.now at edge.now).label)) }
{
    let label = kept_label(
        alloc,
        keeping.as_written,
        keeping.count,
        keeping.state,
        at,
        edge,
    )?;
    let targets = new_numbers_of(alloc, keeping.kept, edge.targets())?;
    let marks = Marks::of(Numbers::from_slice(alloc, edge.marks())?);
    Ok(RawEdge {
        label,
        targets,
        marks,
    })
}
