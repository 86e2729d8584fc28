//! Two labels joined.

ghost use Rattle.std.specs.Prelude.{◌≡◌, ◌<◌, ◌++◌, IfErr, IfOk, IsOkUnless, OnOk};
ghost use Rattle.omega_hoa_expression.specs.Limits.{most_depth};
ghost use Rattle.omega_hoa_label.specs.Label.{label_depth};
ghost use Rattle.omega_hoa_label.specs.Postfix.{postfix};
ghost use Rattle.omega_hoa_edges.specs.Fitting.{IsLarge};
ghost use Rattle.omega_hoa_edges.specs.Conjuncts.{all_of, joined};

use crate::finding::conjuncts_of_both;
use omega_hoa_label::{Label, LabelNode, LabelNodes};
use omega_text::{Refusal, TaskFault};
use std::alloc::Global;

/// Returns the conjunction of two labels: of the conjuncts of both, each once. It is no larger than both with an `&`
/// between them. Fails with [TaskFault::TooLarge] if it is deeper than `MOST_DEPTH`.
///
/// Costs as [`conjuncts_of_both`] does.
pub fn joined_label(alloc: Global, one: &Label, other: &Label) -> Result<Label, Refusal>
    ensures label { IfOk result (λ both. both ≡ joined one.now other.now) }
    ensures err { IfErr result (IsLarge (most_depth < label_depth (joined one.now other.now))) }
{
    let found = conjuncts_of_both(alloc, one, other)?;
    conjunction_of(alloc, found.as_slice())
}

/// Returns the conjunction of labels, grouped from the left. Fails with [TaskFault::TooLarge] if it is deeper than
/// `MOST_DEPTH`. Linear in the labels.
fn conjunction_of(alloc: Global, labels: &[Label]) -> Result<Label, Refusal>
    ensures label { IfOk result (λ label. label ≡ all_of labels.now) }
    ensures err { IfErr result (IsLarge (most_depth < label_depth (all_of labels.now))) }
{
    let mut nodes = LabelNodes::new(alloc);
    push_all(labels, &mut nodes)?;
    match Label::of_postfix(alloc, &nodes) {
        Ok(label) => Ok(label),
        Err(Refusal::Automaton(_)) => Err(Refusal::Task(TaskFault::TooLarge)),
        Err(refusal) => Err(refusal),
    }
}

/// Appends the nodes of the conjunction of labels.
fn push_all(labels: &[Label], nodes: &mut LabelNodes) -> Result<(), Refusal>
    ensures nodes { OnOk result (nodes.new ≡ nodes.old ++ postfix (all_of labels.now)) }
    ensures memory { IsOkUnless result Refusal.Memory }
{
    let [first, others @ ..] = labels else {
        return nodes.push(LabelNode::Constant(true));
    };
    nodes.append(first)?;
    for other in others {
        nodes.append(other)?;
        nodes.push(LabelNode::And)?;
    }
    Ok(())
}
