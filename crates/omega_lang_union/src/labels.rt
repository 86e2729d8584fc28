//! Labels over the joined propositions, as a text writes them.

ghost use Rattle.std.specs.Prelude.{◌≡◌, option_map, IfErr, IfOk};
ghost use Rattle.std.specs.Option.{option_copied};
ghost use Rattle.omega_hoa_label.specs.Writing.{label_written};
ghost use Rattle.omega_hoa_edges.specs.Fitting.{IsLarge};
ghost use Rattle.omega_hoa_label.specs.Renumbering.{relabelled};
ghost use Rattle.omega_lang_runs.specs.Judging.{IsLabelWith};
ghost use Rattle.omega_lang_trim.specs.Refusing.{IsDeepLabel};
ghost use Rattle.omega_lang_union.specs.Parts.{label_in as label_of_edge};

use omega_hoa_automaton::{EdgeRef, State};
use omega_hoa_edges::{edge_label, written_form};
use omega_hoa_label::{Label, RawLabel};
use omega_text::Refusal;
use std::alloc::Global;

/// Returns the label of `edge` of `state`, whose index is `at`, over the joined propositions, or none if the state has
/// one. Fails with [TaskFault::TooLarge] if it is deeper than `MOST_DEPTH` as it is written.
pub(crate) fn label_in<'a>(
    alloc: Global,
    places: &[u32],
    state: &'a State,
    at: usize,
    edge: &EdgeRef<'a>,
) -> Result<Option<RawLabel>, Refusal>
    ensures label { IfOk result (λ raw.
        raw ≡ option_map label_written (label_of_edge places.now state.now at edge.now)) }
    ensures err { IfErr result
        (IsLarge (IsLabelWith IsDeepLabel (label_of_edge places.now state.now at edge.now))) }
{
    if state.label.is_some() {
        return Ok(None);
    }
    let label = edge_label(alloc, places.len(), state, edge, at)?;
    let raw = label_over_union(alloc, label.get(), places)?;
    Ok(Some(raw))
}

/// Returns the label of a state over the joined propositions, if it has one. Fails with [TaskFault::TooLarge] if it is
/// deeper than `MOST_DEPTH` as it is written.
pub(crate) fn state_label(
    alloc: Global,
    places: &[u32],
    label: Option<&Label>,
) -> Result<Option<RawLabel>, Refusal>
    ensures label { IfOk result (λ raw. raw ≡
        option_map label_written (option_map (relabelled places.now) (option_copied label.entry))) }
    ensures err { IfErr result
        (IsLarge (IsLabelWith IsDeepLabel (option_map (relabelled places.now) (option_copied label.entry)))) }
{
    match label {
        None => Ok(None),
        Some(label) => {
            let raw = label_over_union(alloc, label, places)?;
            Ok(Some(raw))
        }
    }
}

/// Returns the written form of a label over the joined propositions. Fails with [TaskFault::TooLarge] if it is deeper
/// than `MOST_DEPTH`.
fn label_over_union(alloc: Global, label: &Label, places: &[u32]) -> Result<RawLabel, Refusal>
    ensures ok { IfOk result (λ raw. raw ≡ label_written (relabelled places.now label.now)) }
    ensures err { IfErr result (IsLarge (IsDeepLabel (relabelled places.now label.now))) }
{
    let moved = label.over_propositions(alloc, places)?;
    written_form(alloc, &moved)
}
