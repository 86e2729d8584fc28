//! The states and edges of an automaton, each a line.

ghost use Rattle.std.specs.Prelude.{◌≡◌, ◌++◌, IsOkUnless, OnOk};
ghost use Rattle.std.specs.List.{flat_map};
ghost use Rattle.omega_canon.specs.BodyText.{body_text, edge_line, state_line, state_text};

use crate::parts::{write_label_part, write_marks, write_numbers, write_string_part};
use omega_hoa_automaton::{EdgeRef, Edges, State};
use omega_text::{Refusal, write_number};

/// Appends `--BODY--`, the lines of the defined states and their edges, and `--END--`.
pub(crate) fn write_body(states: &[State], out: &mut Vec<u8>) -> Result<(), Refusal>
    ensures ok { OnOk result (out.new.items ≡ out.old.items ++ body_text states.now) }
    ensures memory { IsOkUnless result Refusal.Memory }
{
    out.extend_from_slice(b"--BODY--\n")?;
    write_states(states, out)?;
    out.extend_from_slice(b"--END--\n")?;
    Ok(())
}

/// Appends states, each with its edges.
fn write_states(states: &[State], out: &mut Vec<u8>) -> Result<(), Refusal>
    ensures ok { OnOk result (out.new.items ≡ out.old.items ++ flat_map state_text states.now) }
    ensures memory { IsOkUnless result Refusal.Memory }
{
    for state in states {
        write_state(state, out)?;
        write_edges(&state.edges, out)?;
    }
    Ok(())
}

/// Appends the line of a state.
fn write_state(state: &State, out: &mut Vec<u8>) -> Result<(), Refusal>
    ensures ok { OnOk result (out.new.items ≡ out.old.items ++ state_line state.now) }
    ensures memory { IsOkUnless result Refusal.Memory }
{
    out.extend_from_slice(b"State: ")?;
    write_label_part(state.label.as_ref(), out)?;
    write_number(u128::from(state.number), out)?;
    write_string_part(state.name.as_slice(), out)?;
    write_marks(state.marks.as_slice(), out)?;
    out.push(b'\n')?;
    Ok(())
}

/// Appends edges, each a line.
fn write_edges(edges: &Edges, out: &mut Vec<u8>) -> Result<(), Refusal>
    ensures ok { OnOk result (out.new.items ≡ out.old.items ++ flat_map edge_line edges.now) }
    ensures memory { IsOkUnless result Refusal.Memory }
{
    for at in 0..edges.len() {
        write_edge(&edges.edge(at), out)?;
    }
    Ok(())
}

/// Appends the line of an edge.
fn write_edge(edge: &EdgeRef<'_>, out: &mut Vec<u8>) -> Result<(), Refusal>
    ensures ok { OnOk result (out.new.items ≡ out.old.items ++ edge_line edge.now) }
    ensures memory { IsOkUnless result Refusal.Memory }
{
    write_label_part(edge.label(), out)?;
    write_numbers(b'&', edge.targets(), out)?;
    write_marks(edge.marks(), out)?;
    out.push(b'\n')?;
    Ok(())
}
