//! The conjuncts of labels.

ghost use Rattle.std.specs.Prelude.{◌≡◌, ◌++◌, IfOk, IsOkUnless, OnOk};
ghost use Rattle.std.specs.Cmp.Lexicographic.{pointwise};
ghost use Rattle.std.specs.List.{list_any};
ghost use Rattle.indexmap.specs.IndexSet.{insert_all, insert_key};
ghost use Rattle.omega_hoa_label.specs.Label.{LabelTree};
ghost use Rattle.omega_hoa_label.specs.Postfix.{IsInPostfix, postfix};
ghost use Rattle.omega_hoa_label.specs.contracts.label.LabelNodePartialEq.TheImpl as node;
ghost use Rattle.omega_hoa_edges.specs.Conjuncts.{conjuncts, each_once, same_label};

use crate::parts::conjuncts_in;
use omega_hoa_label::{Label, LabelNode, LabelNodes, ROOM};
use omega_text::Refusal;
use std::alloc::Global;

/// Returns the conjuncts of a label, each once, where it first stands.
///
/// Linear in the label, but that each conjunct is compared with those found before it.
pub fn conjuncts_of(alloc: Global, label: &Label) -> Result<Vec<Label>, Refusal>
    ensures conjuncts { IfOk result (λ found. found.items ≡ each_once (conjuncts label.now)) }
    ensures memory { IsOkUnless result Refusal.Memory }
{
    let mut found = Vec::new(alloc);
    add_conjuncts(alloc, label, &mut found)?;
    Ok(found)
}

/// Returns the conjuncts of two labels, each once, where it first stands, those of `one` first. Costs as
/// [`conjuncts_of`] does.
pub fn conjuncts_of_both(alloc: Global, one: &Label, other: &Label) -> Result<Vec<Label>, Refusal>
    ensures conjuncts { IfOk result
        (λ found. found.items ≡ each_once (conjuncts one.now ++ conjuncts other.now)) }
    ensures memory { IsOkUnless result Refusal.Memory }
{
    let mut found = Vec::new(alloc);
    add_conjuncts(alloc, one, &mut found)?;
    add_conjuncts(alloc, other, &mut found)?;
    Ok(found)
}

/// Appends the conjuncts of `label` that are not among those found yet.
fn add_conjuncts(alloc: Global, label: &Label, found: &mut Vec<Label>) -> Result<(), Refusal>
    ensures added { OnOk result
        (found.new.items ≡ insert_all same_label found.old.items (conjuncts label.now)) }
    ensures memory { IsOkUnless result Refusal.Memory }
{
    let mut room = ROOM;
    let parts = conjuncts_in(alloc, label.nodes(&mut room))?;
    for part in parts.as_slice() {
        add_once(alloc, *part, found)?;
    }
    Ok(())
}

/// Appends the label of `nodes` if it is not among those found yet.
fn add_once(alloc: Global, nodes: &[LabelNode], found: &mut Vec<Label>) -> Result<(), Refusal>
    requires { IsInPostfix nodes.now }
    ensures added { OnOk result ((label : LabelTree) → nodes.now ≡ postfix label →
        found.new.items ≡ insert_key same_label found.old.items label) }
    ensures memory { IsOkUnless result Refusal.Memory }
{
    if is_among(nodes, found.as_slice()) {
        return Ok(());
    }
    let label = label_of(alloc, nodes)?;
    found.push(label)?;
    Ok(())
}

/// Whether one of `labels` has these nodes.
fn is_among(nodes: &[LabelNode], labels: &[Label]) -> bool
    ensures { result
        ≡ list_any (λ label. pointwise node.ghosts.eq nodes.now (postfix label)) labels.now }
{
    labels.iter().any(|label| has_nodes(label, nodes))
}

/// Whether `label` has these nodes.
fn has_nodes(label: &Label, nodes: &[LabelNode]) -> bool
    ensures { result ≡ pointwise node.ghosts.eq nodes.now (postfix label.now) }
{
    let mut room = ROOM;
    nodes == label.nodes(&mut room)
}

/// Returns the label of `nodes`, which is a conjunct.
fn label_of(alloc: Global, nodes: &[LabelNode]) -> Result<Label, Refusal>
    requires { IsInPostfix nodes.now }
    ensures label { IfOk result
        (λ made. (label : LabelTree) → nodes.now ≡ postfix label → made ≡ label) }
    ensures memory { IsOkUnless result Refusal.Memory }
{
    let copy = copy_of_nodes(alloc, nodes)?;
    match Label::of_postfix(alloc, &copy) {
        Ok(label) => Ok(label),
        // No part of a label is too deep.
        Err(_) => Err(Refusal::Memory),
    }
}

/// Copies `nodes`.
fn copy_of_nodes(alloc: Global, nodes: &[LabelNode]) -> Result<LabelNodes, Refusal>
    ensures nodes { IfOk result (λ copy. copy ≡ nodes.now) }
    ensures memory { IsOkUnless result Refusal.Memory }
{
    let mut copy = LabelNodes::new(alloc);
    for node in nodes {
        copy.push(*node)?;
    }
    Ok(copy)
}
