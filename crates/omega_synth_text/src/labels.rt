//! Labels of kept edges.

ghost use Rattle.std.specs.Prelude.{◌≡◌, ◌++◌, IsOkUnless, OnOk, ℕ};
ghost use Rattle.omega_hoa_edges.specs.Labels.{label_at, valuation_label};
ghost use Rattle.omega_synth_text.specs.private.Texts.{bytes_of, closing, is_joined as is_joined_label};
ghost use Rattle.omega_synth_text.specs.private.Texts.{joins as joins_two, opening};

use crate::letters::write_literal;
use omega_hoa_automaton::{EdgeRef, Label, State};
use omega_hoa_edges::has_bit;
use omega_hoa_label::{LabelNode, ROOM, write_label};
use omega_text::Refusal;

/// Appends the label of `edge`, whose index within `state` is `at`, over `count` propositions: that of the state, or
/// else its own, or else that of its valuation.
pub(crate) fn write_own_label(
    count: usize,
    state: &State,
    edge: &EdgeRef<'_>,
    at: usize,
    out: &mut Vec<u8>,
) -> Result<(), Refusal>
    ensures text { OnOk result
        (out.new.items ≡ out.old.items ++ bytes_of (label_at count state.now at edge.now)) }
    ensures memory { IsOkUnless result Refusal.Memory }
{
    match (&state.label, edge.label()) {
        (Some(label), _) => write_label(label, out),
        (None, Some(label)) => write_label(label, out),
        (None, None) => write_valuation(at, count, out),
    }
}

/// Appends that label after `&`: in parentheses if an operator of two parts is on top of it.
pub(crate) fn write_joined_label(
    count: usize,
    state: &State,
    edge: &EdgeRef<'_>,
    at: usize,
    out: &mut Vec<u8>,
) -> Result<(), Refusal>
    ensures text { OnOk result
        (let label = label_at count state.now at edge.now in
        out.new.items ≡ out.old.items ++ (opening (is_joined_label label) ++ (bytes_of label
        ++ closing (is_joined_label label)))) }
    ensures memory { IsOkUnless result Refusal.Memory }
{
    if is_own_joined(count, state, edge) {
        out.push(b'(')?;
        write_own_label(count, state, edge, at, out)?;
        out.push(b')')?;
        Ok(())
    } else {
        write_own_label(count, state, edge, at, out)
    }
}

/// Whether an operator of two parts is on top of that label.
fn is_own_joined(count: usize, state: &State, edge: &EdgeRef<'_>) -> bool
    ensures { (at : ℕ) → result ≡ is_joined_label (label_at count state.now at edge.now) }
{
    match (&state.label, edge.label()) {
        (Some(label), _) => is_joined(label),
        (None, Some(label)) => is_joined(label),
        (None, None) => count >= 2,
    }
}

/// Whether an operator of two parts is on top of `label`.
fn is_joined(label: &Label) -> bool
    ensures { result ≡ is_joined_label label.now }
{
    let mut room = ROOM;
    match label.nodes(&mut room).last() {
        Some(node) => joins(*node),
        None => false,
    }
}

/// Whether a node joins two parts.
fn joins(node: LabelNode) -> bool
    ensures { result ≡ joins_two node }
{
    matches!(node, LabelNode::And | LabelNode::Or)
}

/// Appends the label of the valuation of `index` over `count` propositions.
fn write_valuation(index: usize, count: usize, out: &mut Vec<u8>) -> Result<(), Refusal>
    ensures text { OnOk result
        (out.new.items ≡ out.old.items ++ bytes_of (valuation_label index count)) }
    ensures memory { IsOkUnless result Refusal.Memory }
{
    if count == 0 {
        out.push(b't')?;
        return Ok(());
    }
    write_literal(has_bit(index, 0), 0, out)?;
    for p in 1..count {
        out.push(b'&')?;
        write_literal(has_bit(index, p), p as u64, out)?;
    }
    Ok(())
}
