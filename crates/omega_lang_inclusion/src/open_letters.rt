//! Whether a letter of a word leaves a proposition of an automaton open.

ghost use Rattle.std.specs.Prelude.{◌≡◌, ◌↔◌, ◌<◌, ◌^◌, length, IfErr, IfOk, IsOkUnless, IsTrue};
ghost use Rattle.std.specs.Option.{option_copied};
ghost use Rattle.omega_hoa_label.specs.Postfix.{postfix};
ghost use Rattle.omega_lang_inclusion.specs.Opening.{literal_of, place_among};
ghost use Rattle.omega_lang_inclusion.specs.private.Opened.{CanBeBoth, HasOpenName, HasOpenState};
ghost use Rattle.omega_lang_inclusion.specs.private.Opened.{HasUnjudgedState, IsNameRefusal, IsOpenName};
ghost use Rattle.omega_lang_inclusion.specs.private.Opened.{IsUnjudgedName, IsUnjudgedWith, first_label};
ghost use Rattle.std.specs.Prelude.{Some};

use omega_hoa_automaton::{Automaton, State};
use omega_hoa_edges::can_hold_together;
use omega_hoa_label::{Label, LabelNode};
use omega_text::{ByteString, Refusal};
use std::alloc::Global;

/// Whether a letter of `one`, the automaton of a word, can be true with a proposition of these `names` and without it.
/// Fails as `can_hold_together` does.
pub(crate) fn has_open_name(
    alloc: Global,
    one: &Automaton,
    names: &[ByteString],
) -> Result<bool, Refusal>
    ensures right { IfOk result (λ found. IsTrue found ↔ HasOpenName one.now names.now) }
    ensures refused { IfErr result (IsNameRefusal one.now names.now) }
{
    for name in names {
        if is_open_name(alloc, one, name.as_slice())? {
            return Ok(true);
        }
    }
    Ok(false)
}

/// Whether a letter of `one` can be true with the proposition `name` and without it.
fn is_open_name(alloc: Global, one: &Automaton, name: &[u8]) -> Result<bool, Refusal>
    ensures right { IfOk result (λ found. IsTrue found ↔ IsOpenName one.now name.now) }
    ensures refused { IfErr result (IsUnjudgedName one.now name.now) }
{
    one.keeps_limits();
    let number = place_among(one.propositions(), name);
    let held = literal(alloc, number, true)?;
    let unheld = literal(alloc, number, false)?;
    has_open_state(alloc, one.defined(), &held, &unheld)
}

/// Returns the position of `name` in `names`, or their count if it is not there.
fn place_among(names: &[ByteString], name: &[u8]) -> u32
    requires { length names.now < 2 ^ 32 }
    ensures { result ≡ place_among names.now name.now }
{
    for (place, other) in names.iter().enumerate() {
        if name == other.as_slice() {
            return place as u32;
        }
    }
    names.len() as u32
}

/// Returns the label that the proposition `number` holds, or that it does not if `value` is not set.
fn literal(alloc: Global, number: u32, value: bool) -> Result<Label, Refusal>
    ensures label { IfOk result (λ label. label ≡ literal_of number value) }
    ensures memory { IsOkUnless result Refusal.Memory }
{
    let nodes = literal_nodes(alloc, number, value)?;
    Label::from_postfix(alloc, nodes)
}

/// Returns the nodes of a literal.
fn literal_nodes(alloc: Global, number: u32, value: bool) -> Result<Vec<LabelNode>, Refusal>
    ensures nodes { IfOk result (λ nodes. nodes.items ≡ postfix (literal_of number value)) }
    ensures memory { IsOkUnless result Refusal.Memory }
{
    let mut nodes = Vec::new(alloc);
    nodes.push(LabelNode::Proposition(number))?;
    if value {
        return Ok(nodes);
    }
    nodes.push(LabelNode::Not)?;
    Ok(nodes)
}

/// Whether the label of the first edge of one of `states` can be true with `held` and with `unheld`.
fn has_open_state(
    alloc: Global,
    states: &[State],
    held: &Label,
    unheld: &Label,
) -> Result<bool, Refusal>
    ensures right { IfOk result (λ found. IsTrue found ↔ HasOpenState held.now unheld.now states.now) }
    ensures refused { IfErr result (HasUnjudgedState held.now unheld.now states.now) }
{
    for state in states {
        if is_open_state(alloc, state, held, unheld)? {
            return Ok(true);
        }
    }
    Ok(false)
}

/// Whether the label of the first edge of `state` can be true with `held` and with `unheld`.
fn is_open_state(
    alloc: Global,
    state: &State,
    held: &Label,
    unheld: &Label,
) -> Result<bool, Refusal>
    ensures right { IfOk result
        (λ found. IsTrue found ↔ CanBeBoth held.now unheld.now (first_label state.now.edges)) }
    ensures refused { IfErr result (IsUnjudgedWith held.now unheld.now (first_label state.now.edges)) }
{
    if state.edges.len() == 0 {
        return Ok(false);
    }
    let edge = state.edges.edge(0);
    can_label_be_both(alloc, edge.label(), held, unheld)
}

/// Whether there is a label, and it can be true with `held` and with `unheld`.
fn can_label_be_both(
    alloc: Global,
    label: Option<&Label>,
    held: &Label,
    unheld: &Label,
) -> Result<bool, Refusal>
    ensures right { IfOk result
        (λ both. IsTrue both ↔ CanBeBoth held.now unheld.now (option_copied label.entry)) }
    ensures refused { IfErr result (IsUnjudgedWith held.now unheld.now (option_copied label.entry)) }
{
    match label {
        None => Ok(false),
        Some(label) => can_be_both(alloc, label, held, unheld),
    }
}

/// Whether `label` can be true with `held` and with `unheld`.
fn can_be_both(alloc: Global, label: &Label, held: &Label, unheld: &Label) -> Result<bool, Refusal>
    ensures right { IfOk result
        (λ both. IsTrue both ↔ CanBeBoth held.now unheld.now (Some label.now)) }
    ensures refused { IfErr result (IsUnjudgedWith held.now unheld.now (Some label.now)) }
{
    if can_hold_together(alloc, label, held)? {
        can_hold_together(alloc, label, unheld)
    } else {
        Ok(false)
    }
}
