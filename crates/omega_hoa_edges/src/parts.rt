//! The conjuncts of a label in its nodes, found from the last node to the first.

ghost use Rattle.std.specs.Prelude.{◌≡◌, ◌<◌, ◌≤◌, length, map, IfNone, IfOk, IfSome, IsOkUnless};
ghost use Rattle.omega_hoa_label.specs.Label.{LabelTree};
ghost use Rattle.omega_hoa_label.specs.Postfix.{postfix};
ghost use Rattle.omega_hoa_edges.specs.Conjuncts.{conjuncts};
ghost use Rattle.omega_hoa_edges.specs.private.Stacked.{AreOpened, EndInConjunct, EndInNoNot, IsBeforeNot};
ghost use Rattle.omega_hoa_edges.specs.private.Stacked.{IsLastLength, is_not as is_negation};
ghost use Rattle.omega_hoa_edges.specs.private.Stacked.{joins as joins_conjuncts, part_count};

use omega_hoa_label::LabelNode;
use omega_text::Refusal;
use std::alloc::Global;

/// Returns the nodes of each conjunct of the label of `nodes`, from left to right. Linear in the nodes.
pub(crate) fn conjuncts_in<'a>(
    alloc: Global,
    nodes: &'a [LabelNode],
) -> Result<Vec<&'a [LabelNode]>, Refusal>
    ensures conjuncts { IfOk result (λ parts. (label : LabelTree) → nodes.now ≡ postfix label →
        map (λ part. part.now) parts.items ≡ map postfix (conjuncts label)) }
    ensures memory { IsOkUnless result Refusal.Memory }
{
    let mut parts = Vec::new(alloc);
    let mut left = nodes;
    while !left.is_empty() {
        match opened_parts(left) {
            Some(within) => left = within,
            None => {
                let (others, last) = left.split_at(left.len() - last_length(left));
                parts.push(last)?;
                left = others;
            }
        }
    }
    parts.reverse();
    Ok(parts)
}

/// Returns what is left of the nodes of labels without the last `&`, `t` or pair of `!`, or none if they end in no such
/// node: then the last label is a conjunct.
fn opened_parts(nodes: &[LabelNode]) -> Option<&[LabelNode]>
    ensures opened { IfSome result (λ left. AreOpened nodes.now left.now) }
    ensures shorter { IfSome result (λ left. length left.now < length nodes.now) }
    ensures conjunct { IfNone result (EndInConjunct nodes.now) }
{
    let (node, before) = nodes.split_last()?;
    if joins(*node) {
        return Some(before);
    }
    if is_not(*node) {
        return without_not(before);
    }
    None
}

/// Returns the nodes without the last if it is `!`.
fn without_not(nodes: &[LabelNode]) -> Option<&[LabelNode]>
    ensures before { IfSome result (λ before. IsBeforeNot nodes.now before.now) }
    ensures shorter { IfSome result (λ before. length before.now < length nodes.now) }
    ensures none { IfNone result (EndInNoNot nodes.now) }
{
    let (node, before) = nodes.split_last()?;
    match node {
        LabelNode::Not => Some(before),
        _ => None,
    }
}

/// Whether `node` joins conjuncts or is `t`.
fn joins(node: LabelNode) -> bool
    ensures { result ≡ joins_conjuncts node }
{
    matches!(node, LabelNode::And | LabelNode::Constant(true))
}

/// Whether `node` is `!`.
fn is_not(node: LabelNode) -> bool
    ensures { result ≡ is_negation node }
{
    matches!(node, LabelNode::Not)
}

/// Returns the number of nodes of the last label in `nodes`. Linear in it.
fn last_length(nodes: &[LabelNode]) -> usize
    ensures length { IsLastLength nodes.now result }
    ensures within { result ≤ length nodes.now }
    ensures some { 0 < length nodes.now → 0 < result }
{
    let mut wanted: usize = 1;
    let mut left = nodes;
    while wanted > 0 {
        let Some((node, before)) = left.split_last() else {
            return nodes.len();
        };
        left = before;
        wanted = wanted - 1 + parts_of(*node);
    }
    nodes.len() - left.len()
}

/// Returns the number of parts of `node`. An alias has none.
fn parts_of(node: LabelNode) -> usize
    ensures { result ≡ part_count node }
{
    match node {
        LabelNode::Constant(_) | LabelNode::Proposition(_) | LabelNode::Alias(_) => 0,
        LabelNode::Not | LabelNode::Group => 1,
        LabelNode::And | LabelNode::Or => 2,
    }
}
