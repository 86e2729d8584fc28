//! Labels that are neither too deep nor too large.

ghost use Rattle.std.specs.Prelude.{◌≡◌, IfErr, IfOk, OnOk};
ghost use Rattle.omega_hoa_label.specs.Label.{LabelTree, conjunction};
ghost use Rattle.omega_hoa_label.specs.Postfix.{IsInPostfix, postfix};
ghost use Rattle.omega_hoa_label.specs.Shape.{FitsALabel};
ghost use Rattle.omega_hoa_edges.specs.Fitting.{IsUnfit};

use omega_hoa_expression::MOST_SIZE;
use omega_hoa_label::{Label, LabelNodes};
use omega_text::{Refusal, TaskFault};
use std::alloc::Global;

/// Judges the size of a label. Fails with [TaskFault::TooLarge] if it has over `MOST_SIZE` atoms and operators; none is
/// deeper than `MOST_DEPTH`. Takes constant time.
pub fn judge_size(label: &Label) -> Result<(), Refusal>
    ensures fits { OnOk result (FitsALabel label.now) }
    ensures err { IfErr result (IsUnfit label.now) }
{
    label.keeps_limits();
    if label.size() > MOST_SIZE as usize {
        return Err(Refusal::Task(TaskFault::TooLarge));
    }
    Ok(())
}

/// Returns the conjunction of two labels. Fails with [TaskFault::TooLarge] if it is deeper than `MOST_DEPTH` or has
/// over `MOST_SIZE` atoms and operators. Linear in both.
pub(crate) fn fitting_conjunction(
    alloc: Global,
    one: &Label,
    other: &Label,
) -> Result<Label, Refusal>
    ensures label { IfOk result (λ both. both ≡ conjunction one.now other.now) }
    ensures fits { OnOk result (FitsALabel (conjunction one.now other.now)) }
    ensures err { IfErr result (IsUnfit (conjunction one.now other.now)) }
{
    match Label::conjunction(alloc, one, other) {
        Ok(both) => of_size(both),
        Err(Refusal::Automaton(_)) => Err(Refusal::Task(TaskFault::TooLarge)),
        Err(refusal) => Err(refusal),
    }
}

/// Returns the label of `nodes` in postfix order. Fails with [TaskFault::TooLarge] if it is deeper than `MOST_DEPTH` or
/// has over `MOST_SIZE` atoms and operators. Linear in the nodes.
pub fn fitting_nodes(alloc: Global, nodes: &LabelNodes) -> Result<Label, Refusal>
    requires { IsInPostfix nodes.now }
    ensures label { IfOk result
        (λ label. (tree : LabelTree) → nodes.now ≡ postfix tree → label ≡ tree) }
    ensures fits { OnOk result ((tree : LabelTree) → nodes.now ≡ postfix tree → FitsALabel tree) }
    ensures err { IfErr result
        (λ refusal. (tree : LabelTree) → nodes.now ≡ postfix tree → IsUnfit tree refusal) }
{
    match Label::of_postfix(alloc, nodes) {
        Ok(label) => of_size(label),
        Err(Refusal::Automaton(_)) => Err(Refusal::Task(TaskFault::TooLarge)),
        Err(refusal) => Err(refusal),
    }
}

/// Returns `label` unchanged. Fails as [`judge_size`] does.
fn of_size(label: Label) -> Result<Label, Refusal>
    ensures label { IfOk result (λ fitting. fitting ≡ label) }
    ensures fits { OnOk result (FitsALabel label) }
    ensures err { IfErr result (IsUnfit label) }
{
    judge_size(&label)?;
    Ok(label)
}
