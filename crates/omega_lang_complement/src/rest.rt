//! The letters at which no edge of a state can be taken.

ghost use Rattle.std.specs.Prelude.{◌<◌, length, IfErr, IfOk, IsOkUnless, OnOk};
ghost use Rattle.omega_hoa_label.specs.Shape.{FitsALabel};
ghost use Rattle.omega_lang_complement.specs.Judged.{HasLargeRest, RestFits, RestFitsAText};
ghost use Rattle.omega_lang_complement.specs.Letters.{IsRestLabel};
ghost use Rattle.omega_lang_complement.specs.Written.{IsMissing};
ghost use Rattle.omega_lang_complement.specs.private.Rests.{IsAnyPut, IsRestPut};
ghost use Rattle.omega_lang_complement.specs.private.Turned.{IsJudgingRefusal};
ghost use Rattle.omega_hoa_edges.specs.Fitting.{IsLarge};

use omega_hoa_edges::{StateLabels, fitting_nodes, written_form};
use omega_hoa_label::{Label, LabelNode, LabelNodes, RawLabel};
use omega_hoa_satisfiable::is_satisfiable;
use omega_text::Refusal;
use std::alloc::Global;

/// Returns the label of the letters at which no edge of `state` can be taken, or none if there is no such letter. Fails
/// with [TaskFault::TooLarge] if it is too deep or too large, and else as `is_satisfiable` does.
pub(crate) fn missing_label(
    alloc: Global,
    state: &StateLabels<'_>,
) -> Result<Option<RawLabel>, Refusal>
    ensures missing { IfOk result (IsMissing state.now.labels.now) }
    ensures judged { OnOk result (RestFits state.now.labels.now) }
    ensures written { OnOk result (RestFitsAText state.now.labels.now) }
    ensures err { IfErr result (IsJudgingRefusal state.now) }
{
    let rest = rest_of(alloc, state.labels)?;
    if is_satisfiable(alloc, &rest)? {
        Ok(Some(written_form(alloc, &rest)?))
    } else {
        Ok(None)
    }
}

/// Returns the label of the letters at which no edge can be taken. Fails with [TaskFault::TooLarge] if it is deeper
/// than `MOST_DEPTH` or has over `MOST_SIZE` atoms and operators.
fn rest_of(alloc: Global, labels: &[Label]) -> Result<Label, Refusal>
    ensures rest { IfOk result (IsRestLabel labels.now) }
    ensures fits { IfOk result FitsALabel }
    ensures err { IfErr result (IsLarge (HasLargeRest labels.now)) }
{
    let mut nodes = LabelNodes::new(alloc);
    put_rest(labels, &mut nodes)?;
    fitting_nodes(alloc, &nodes)
}

/// Appends the nodes of the label of the letters at which no edge can be taken.
fn put_rest(labels: &[Label], nodes: &mut LabelNodes) -> Result<(), Refusal>
    ensures rest { OnOk result (IsRestPut labels.now nodes.old nodes.new) }
    ensures memory { IsOkUnless result Refusal.Memory }
{
    if labels.is_empty() {
        return nodes.push(LabelNode::Constant(true));
    }
    put_any(labels, nodes)?;
    nodes.push(LabelNode::Not)
}

/// Appends the nodes of `labels` joined by `|`, half by half, so that the result is as shallow as can be. Recurses as
/// deep as the binary logarithm of their number.
fn put_any(labels: &[Label], nodes: &mut LabelNodes) -> Result<(), Refusal>
    requires { 0 < length labels.now }
    ensures any { OnOk result (IsAnyPut labels.now nodes.old nodes.new) }
    ensures memory { IsOkUnless result Refusal.Memory }
{
    if labels.len() == 1 {
        return nodes.append(&labels[0]);
    }
    let middle = labels.len() / 2;
    put_any(&labels[..middle], nodes)?;
    put_any(&labels[middle..], nodes)?;
    nodes.push(LabelNode::Or)
}
