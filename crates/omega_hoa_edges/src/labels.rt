//! The labels of the edges of a state. An edge that is written without one has the label of its valuation.

ghost use Rattle.std.specs.Prelude.{◌≡◌, IfErr, IfOk, OnOk};
ghost use Rattle.std.specs.List.{All};
ghost use Rattle.omega_hoa_label.specs.Shape.{FitsALabel};
ghost use Rattle.omega_hoa_edges.specs.AutomatonLabels.{labels_of as labels_of_state};
ghost use Rattle.omega_hoa_edges.specs.Judged.{HasLargeEdge};
ghost use Rattle.omega_hoa_edges.specs.Fitting.{IsLarge, IsUnfit};
ghost use Rattle.omega_hoa_edges.specs.Labels.{label_at as label_of_edge};

use crate::{edge_label, judge_size};
use omega_hoa_automaton::{EdgeRef, State};
use omega_hoa_label::Label;
use omega_text::Refusal;
use std::alloc::Global;

/// Returns the labels of the edges of `state`, over `count` propositions. Fails with [TaskFault::TooLarge] if one would
/// be deeper than `MOST_DEPTH` or have over `MOST_SIZE` atoms and operators.
pub fn labels_of(alloc: Global, count: usize, state: &State) -> Result<Vec<Label>, Refusal>
    ensures labels { IfOk result (λ labels. labels.items ≡ labels_of_state count state.now) }
    ensures fits { OnOk result (All FitsALabel (labels_of_state count state.now)) }
    ensures err { IfErr result (IsLarge (HasLargeEdge (labels_of_state count state.now))) }
{
    let mut labels = Vec::with_capacity(alloc, state.edges.len())?;
    for at in 0..state.edges.len() {
        let edge = state.edges.edge(at);
        let label = fitting_label(alloc, count, state, &edge, at)?;
        labels.push(label)?;
    }
    Ok(labels)
}

/// Returns the label of `edge` of `state`, whose index is `at`, over `count` propositions. Fails with
/// [TaskFault::TooLarge] as `labels_of` does.
fn fitting_label<'a>(
    alloc: Global,
    count: usize,
    state: &'a State,
    edge: &EdgeRef<'a>,
    at: usize,
) -> Result<Label, Refusal>
    ensures label { IfOk result (λ label. label ≡ label_of_edge count state.now at edge.now) }
    ensures fits { OnOk result (FitsALabel (label_of_edge count state.now at edge.now)) }
    ensures err { IfErr result (IsUnfit (label_of_edge count state.now at edge.now)) }
{
    let label = edge_label(alloc, count, state, edge, at)?;
    judge_size(label.get())?;
    Ok(label.into_label(alloc)?)
}
