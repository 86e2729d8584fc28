//! The body of a winner's automaton.

ghost use Rattle.std.specs.Prelude.{◌≡◌, ◌++◌, ◌+◌, ◌<◌, ◌≤◌, IfOk, IsOkUnless};
ghost use Rattle.std.specs.Prelude.{OnOk, length, option_map, slice_index_or, true};
ghost use Rattle.std.specs.List.{flat_map};
ghost use Rattle.omega_hoa_automaton.specs.Automaton.{edge_count};
ghost use Rattle.omega_hoa_automaton.specs.declared.edge.Edge.{Edge as edge_item};
ghost use Rattle.omega_canon.specs.BodyText.{body_text, edge_line, state_text};
ghost use Rattle.omega_canon.specs.Parts.{string_part};
ghost use Rattle.omega_synth_text.specs.Winner.{letter_edge, number_of, state_letter};
ghost use Rattle.omega_synth_text.specs.private.Parts as parts;
ghost use Rattle.omega_synth_text.specs.private.Texts.{bytes_of};

use crate::labels::{write_joined_label, write_own_label};
use crate::letters::letter_text;
use crate::parts::{Winner, is_set, new_number};
use omega_hoa_automaton::{EdgeRef, State};
use omega_text::{Refusal, write_number};
use std::alloc::Global;

/// Appends `--BODY--`, the lines of the states that are reached and of their kept edges, and `--END--`.
pub(crate) fn write_body(winner: &Winner<'_>, out: &mut Vec<u8>) -> Result<(), Refusal>
    requires { parts.IsReady winner.now }
    ensures text { OnOk result (out.new.items ≡ out.old.items
        ++ body_text (parts.states_by winner.now 0 winner.now.automaton.now.defined)) }
    ensures memory { IsOkUnless result Refusal.Memory }
{
    out.extend_from_slice(b"--BODY--\n")?;
    write_states(winner, out)?;
    out.extend_from_slice(b"--END--\n")?;
    Ok(())
}

/// Appends the states that are reached, each with its kept edges.
fn write_states(winner: &Winner<'_>, out: &mut Vec<u8>) -> Result<(), Refusal>
    requires { parts.IsReady winner.now }
    ensures text { OnOk result (out.new.items ≡ out.old.items
        ++ flat_map state_text (parts.states_by winner.now 0 winner.now.automaton.now.defined)) }
    ensures memory { IsOkUnless result Refusal.Memory }
{
    let mut number = 0;
    for state in winner.automaton.defined() {
        if is_set(winner.reached, state.number as usize) {
            write_state(winner, state, number, out)?;
        }
        number += state.edges.len();
    }
    Ok(())
}

/// Appends the line of `state`, whose first edge has this `number`, and the lines of its kept edges.
fn write_state(
    winner: &Winner<'_>,
    state: &State,
    number: usize,
    out: &mut Vec<u8>,
) -> Result<(), Refusal>
    requires ready { parts.IsReady winner.now }
    requires state { parts.IsPlainState winner.now.automaton.now.states state.now }
    requires number { number + length state.now.edges ≤ edge_count winner.now.automaton.now }
    ensures text { OnOk result
        (out.new.items ≡ out.old.items ++ state_text (parts.state_by winner.now number state.now)) }
    ensures memory { IsOkUnless result Refusal.Memory }
{
    out.extend_from_slice(b"State: ")?;
    write_number(u128::from(new_number(winner.numbers, state.number)), out)?;
    write_name(state.name.as_slice(), out)?;
    out.push(b'\n')?;
    write_edges(winner, state, number, out)
}

/// Appends a space and the name in quotes, if there is one.
fn write_name(name: Option<&[u8]>, out: &mut Vec<u8>) -> Result<(), Refusal>
    ensures text { OnOk result
        (out.new.items ≡ out.old.items ++ string_part (option_map (λ bytes. bytes.now) name.entry)) }
    ensures memory { IsOkUnless result Refusal.Memory }
{
    if let Some(bytes) = name {
        out.extend_from_slice(b" \"")?;
        out.extend_from_slice(bytes)?;
        out.push(b'"')?;
    }
    Ok(())
}

/// Appends the kept edges of `state`, whose first edge has this `number`. If there are letters and no edge is kept,
/// appends an edge from the state back to it for its letter.
fn write_edges(
    winner: &Winner<'_>,
    state: &State,
    number: usize,
    out: &mut Vec<u8>,
) -> Result<(), Refusal>
    requires ready { parts.IsReady winner.now }
    requires state { parts.IsPlainState winner.now.automaton.now.states state.now }
    requires number { number + length state.now.edges ≤ edge_count winner.now.automaton.now }
    ensures text { OnOk result (out.new.items ≡ out.old.items
        ++ flat_map edge_line (parts.written_by winner.now number state.now)) }
    ensures memory { IsOkUnless result Refusal.Memory }
{
    let letter = state_letter(*out.allocator(), winner, state.number)?;
    let before = out.len();
    write_kept_edges(winner, state, number, letter.as_slice(), out)?;
    if winner.lettered && out.len() == before {
        write_letter_edge(winner, state, letter.as_slice(), out)?;
    }
    Ok(())
}

/// Appends the kept edges of `state`, whose first edge has this `number`; `letter` is the text of the letter of the
/// state, if there are letters.
fn write_kept_edges(
    winner: &Winner<'_>,
    state: &State,
    number: usize,
    letter: &[u8],
    out: &mut Vec<u8>,
) -> Result<(), Refusal>
    requires ready { parts.IsReady winner.now }
    requires state { parts.IsPlainState winner.now.automaton.now.states state.now }
    requires number { number + length state.now.edges ≤ edge_count winner.now.automaton.now }
    requires letter { winner.now.lettered ≡ true → letter.now
        ≡ bytes_of (state_letter winner.now.inputs.now winner.now.letters.now state.now.number) }
    ensures text { OnOk result (out.new.items ≡ out.old.items
        ++ flat_map edge_line (parts.edges_by winner.now state.now 0 number state.now.edges)) }
    ensures memory { IsOkUnless result Refusal.Memory }
{
    for at in 0..state.edges.len() {
        if is_set(winner.kept, number + at) {
            write_edge(winner, state, at, letter, out)?;
        }
    }
    Ok(())
}

/// Appends the line of an edge from `state` back to it, for the letter of the state, whose text is `letter`.
fn write_letter_edge(
    winner: &Winner<'_>,
    state: &State,
    letter: &[u8],
    out: &mut Vec<u8>,
) -> Result<(), Refusal>
    requires ready { parts.IsReady winner.now }
    requires state { parts.IsPlainState winner.now.automaton.now.states state.now }
    requires letter { letter.now
        ≡ bytes_of (state_letter winner.now.inputs.now winner.now.letters.now state.now.number) }
    ensures text { OnOk result (out.new.items ≡ out.old.items ++ edge_line (letter_edge
        (state_letter winner.now.inputs.now winner.now.letters.now state.now.number)
        (number_of (parts.reached_by winner.now) state.now.number))) }
    ensures memory { IsOkUnless result Refusal.Memory }
{
    out.push(b'[')?;
    out.extend_from_slice(letter)?;
    out.extend_from_slice(b"] ")?;
    write_number(u128::from(new_number(winner.numbers, state.number)), out)?;
    out.push(b'\n')?;
    Ok(())
}

/// Returns the text of the letter of `state`, if there are letters.
fn state_letter(alloc: Global, winner: &Winner<'_>, state: u32) -> Result<Vec<u8>, Refusal>
    ensures letter { IfOk result (λ text. winner.now.lettered ≡ true
        → text.items ≡ bytes_of (state_letter winner.now.inputs.now winner.now.letters.now state)) }
    ensures memory { IsOkUnless result Refusal.Memory }
{
    if winner.lettered {
        letter_text(alloc, winner.inputs, winner.letters, state)
    } else {
        Ok(Vec::new(alloc))
    }
}

/// Appends the line of the edge of `state` at the index `at`; `letter` is the text of the letter of the state, if there
/// are letters.
fn write_edge(
    winner: &Winner<'_>,
    state: &State,
    at: usize,
    letter: &[u8],
    out: &mut Vec<u8>,
) -> Result<(), Refusal>
    requires ready { parts.IsReady winner.now }
    requires state { parts.IsPlainState winner.now.automaton.now.states state.now }
    requires at { at < length state.now.edges }
    requires letter { winner.now.lettered ≡ true → letter.now
        ≡ bytes_of (state_letter winner.now.inputs.now winner.now.letters.now state.now.number) }
    ensures text { OnOk result ((d : edge_item) → out.new.items ≡ out.old.items
        ++ edge_line (parts.edge_by winner.now state.now at (slice_index_or state.now.edges at d))) }
    ensures memory { IsOkUnless result Refusal.Memory }
{
    let edge = state.edges.edge(at);
    out.push(b'[')?;
    write_demanding(winner, state, &edge, at, letter, out)?;
    out.extend_from_slice(b"] ")?;
    let target = edge.targets()[0];
    write_number(u128::from(new_number(winner.numbers, target)), out)?;
    out.push(b'\n')?;
    Ok(())
}

/// Appends the label of an edge, which also demands the letter if there are letters.
fn write_demanding(
    winner: &Winner<'_>,
    state: &State,
    edge: &EdgeRef<'_>,
    at: usize,
    letter: &[u8],
    out: &mut Vec<u8>,
) -> Result<(), Refusal>
    requires { winner.now.lettered ≡ true → letter.now
        ≡ bytes_of (state_letter winner.now.inputs.now winner.now.letters.now state.now.number) }
    ensures text { OnOk result (out.new.items ≡ out.old.items
        ++ bytes_of (parts.label_by winner.now state.now at edge.now)) }
    ensures memory { IsOkUnless result Refusal.Memory }
{
    let count = winner.automaton.propositions().len();
    if winner.lettered {
        out.extend_from_slice(letter)?;
        out.push(b'&')?;
        write_joined_label(count, state, edge, at, out)
    } else {
        write_own_label(count, state, edge, at, out)
    }
}
