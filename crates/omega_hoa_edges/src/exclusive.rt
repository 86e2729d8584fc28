//! Whether the labels of a state are exclusive: at each letter at most one of its edges can be taken.

ghost use Rattle.std.specs.Prelude.{◌<◌, ◌≤◌, IfErr, IfOk, IsOkUnless, IsTrue, OnOk, false, length};
ghost use Rattle.omega_hoa_label.specs.Label.{LabelTree, constant};
ghost use Rattle.omega_hoa_satisfiable.specs.Tables.{IsWideTable};
ghost use Rattle.omega_hoa_edges.specs.Judged.{BothFit};
ghost use Rattle.omega_hoa_edges.specs.Letters.{AreExclusive};
ghost use Rattle.omega_hoa_edges.specs.Refusing.{IsClashRefusal};
ghost use Rattle.omega_hoa_edges.specs.Summaries.{AreSummariesOf};
ghost use Rattle.omega_hoa_edges.specs.private.Apart.{AreApartTo, IsAddedApart, IsApartFrom};

use crate::judging::MOST_SMALL;
use crate::state_labels::StateLabels;
use crate::summary::{LabelSummary, can_summaries_meet};
use omega_hoa_label::Label;
use omega_hoa_satisfiable::WideTable;
use omega_text::{Refusal, TaskFault};
use std::alloc::Global;

/// The fewest labels that are added up in a table. Fewer are judged sooner two at a time.
const LEAST_ADDED: usize = 24;

/// Checks that at each letter at most one of the labels of `state` is true. Fails with [TaskFault::NotDeterministic]
/// with the number of the state if two can be true together, and as `can_hold_together` does.
///
/// Many small conjunctions of literals over the first twelve propositions are added up in a table, as long as each is
/// apart from those before. The labels from the first other one on are judged together with each one before them.
pub fn check_exclusive_labels(alloc: Global, state: &StateLabels<'_>) -> Result<(), Refusal>
    ensures apart { OnOk result (AreExclusive state.now.labels.now) }
    ensures fits { OnOk result (BothFit state.now.labels.now) }
    ensures err { IfErr result (IsClashRefusal state.now.labels.now state.now.number) }
{
    let apart = apart_by_table(alloc, state.labels)?;
    if apart == state.labels.len() {
        return Ok(());
    }
    check_from(alloc, state, apart)
}

/// Checks the labels from `apart` on, each together with those before it. Those before `apart` are apart.
fn check_from(alloc: Global, state: &StateLabels<'_>, apart: usize) -> Result<(), Refusal>
    requires { AreApartTo state.now.labels.now apart }
    ensures apart { OnOk result (AreExclusive state.now.labels.now) }
    ensures fits { OnOk result (BothFit state.now.labels.now) }
    ensures err { IfErr result (IsClashRefusal state.now.labels.now state.now.number) }
{
    let summaries = summaries_of(alloc, state.labels)?;
    for second in apart..state.labels.len() {
        check_before(alloc, state, summaries.as_slice(), second)?;
    }
    Ok(())
}

/// Returns how many of the first labels are apart, as far as a table shows, and 0 if there are few.
fn apart_by_table(alloc: Global, labels: &[Label]) -> Result<usize, Refusal>
    ensures apart { IfOk result (AreApartTo labels.now) }
    ensures memory { IsOkUnless result Refusal.Memory }
{
    if labels.len() < LEAST_ADDED {
        return Ok(0);
    }
    let mut table = WideTable::never(alloc)?;
    Ok(count_apart(labels, &mut table))
}

/// Adds labels to a table, one after the other, as long as they are small and apart from those before. Returns how many
/// were added.
fn count_apart(labels: &[Label], table: &mut WideTable) -> usize
    requires { IsWideTable (constant false) table.old }
    ensures { AreApartTo labels.now result }
{
    for second in 0..labels.len() {
        if !add_small(&labels[second], table) {
            return second;
        }
    }
    labels.len()
}

/// Adds `label` to a table, if it is small and can't be true together with the label of the table. Returns whether it
/// was added.
fn add_small(label: &Label, table: &mut WideTable) -> bool
    requires { (one : LabelTree) × IsWideTable one table.old }
    ensures { IsTrue result → (one : LabelTree) → IsWideTable one table.old
        → IsAddedApart one label.now table.new }
{
    if label.size() > MOST_SMALL {
        return false;
    }
    table.add_apart(label)
}

/// Returns the summaries of `labels`.
fn summaries_of(alloc: Global, labels: &[Label]) -> Result<Vec<LabelSummary>, Refusal>
    ensures summaries { IfOk result
        (λ summaries. AreSummariesOf labels.now summaries.items (length labels.now)) }
    ensures memory { IsOkUnless result Refusal.Memory }
{
    let mut summaries = Vec::with_capacity(alloc, labels.len())?;
    for index in 0..labels.len() {
        let summary = LabelSummary::of(alloc, &labels[index])?;
        summaries.push(summary)?;
    }
    Ok(summaries)
}

/// Checks the label at `second` together with each one before it.
fn check_before(
    alloc: Global,
    state: &StateLabels<'_>,
    summaries: &[LabelSummary],
    second: usize,
) -> Result<(), Refusal>
    requires second { second < length state.now.labels.now }
    requires summaries { AreSummariesOf state.now.labels.now summaries.now (length state.now.labels.now) }
    ensures apart { OnOk result (IsApartFrom state.now.labels.now second second) }
    ensures err { IfErr result (IsClashRefusal state.now.labels.now state.now.number) }
{
    let labels = state.labels;
    for first in 0..second {
        let (one, other) = (&labels[first], &labels[second]);
        if can_summaries_meet(alloc, one, &summaries[first], other, &summaries[second])? {
            return Err(Refusal::Task(TaskFault::NotDeterministic(state.number as usize)));
        }
    }
    Ok(())
}
