//! The labels that stay, as a text writes them.

ghost use Rattle.std.specs.Prelude.{◌≡◌, option_map, IfErr, IfOk};
ghost use Rattle.std.specs.Option.{option_copied};
ghost use Rattle.omega_hoa_label.specs.Writing.{label_written};
ghost use Rattle.omega_lang_runs.specs.Judging.{IsLabelWith};
ghost use Rattle.omega_hoa_edges.specs.Fitting.{IsLarge};
ghost use Rattle.omega_lang_trim.specs.Refusing.{IsDeepLabel};
ghost use Rattle.omega_lang_trim.specs.Trimmed.{label_kept};

use omega_hoa_automaton::{EdgeRef, Refusal, State};
use omega_hoa_edges::{edge_label, written_form};
use omega_hoa_label::{Label, RawLabel};
use std::alloc::Global;

/// Returns `label` as a text writes it, or none if it is absent. Fails with [TaskFault::TooLarge] if the written form
/// is deeper than `MOST_DEPTH`.
pub(crate) fn same_label(alloc: Global, label: Option<&Label>) -> Result<Option<RawLabel>, Refusal>
    ensures label { IfOk result (λ raw. raw ≡ option_map label_written (option_copied label.entry)) }
    ensures err { IfErr result (IsLarge (IsLabelWith IsDeepLabel (option_copied label.entry))) }
{
    match label {
        None => Ok(None),
        Some(label) => Ok(Some(written_form(alloc, label)?)),
    }
}

/// Returns the label of `edge` of `state`, whose index is `at`, as it stays: as it is written if `as_written` is set,
/// or else never left out. Fails with [TaskFault::TooLarge] if the written form is deeper than `MOST_DEPTH`.
pub(crate) fn kept_label<'a>(
    alloc: Global,
    as_written: bool,
    count: usize,
    state: &'a State,
    at: usize,
    edge: &EdgeRef<'a>,
) -> Result<Option<RawLabel>, Refusal>
    ensures label { IfOk result (λ raw.
        raw ≡ option_map label_written (label_kept as_written count state.now at edge.now)) }
    ensures err { IfErr result
        (IsLarge (IsLabelWith IsDeepLabel (label_kept as_written count state.now at edge.now))) }
{
    if as_written {
        return same_label(alloc, edge.label());
    }
    let label = edge_label(alloc, count, state, edge, at)?;
    Ok(Some(written_form(alloc, label.get())?))
}
