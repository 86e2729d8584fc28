//! The front of an automaton's drawing, its initial choices and its states.

ghost use Rattle.std.specs.Prelude.{◌≡◌, ◌++◌, IfSome, IsOkUnless, OnOk, decimal};
ghost use Rattle.std.specs.List.{flat_map};
ghost use Rattle.omega_hoa_automaton.specs.Automaton.{IsLabel, IsState};
ghost use Rattle.omega_hoa_dot.specs.AutomatonDrawing.{front, point_end, start_arrow};
ghost use Rattle.omega_hoa_dot.specs.AutomatonDrawing.{start_point, start_text};
ghost use Rattle.omega_hoa_dot.specs.States.{drawn_state, marks_line, spaced_numbers};
ghost use Rattle.omega_hoa_dot.specs.States.{state_front, state_label_line};
ghost use Rattle.omega_text.specs.Numbered.{numbered};

use crate::naming::write_named;
use omega_hoa_acceptance::write_acc;
use omega_hoa_automaton::{Automaton, State};
use omega_hoa_label::Label;
use omega_text::{Refusal, write_name_line, write_number};

/// Appends the front of the graph, with the automaton's name and acceptance formula.
pub(crate) fn write_front(automaton: &Automaton, out: &mut Vec<u8>) -> Result<(), Refusal>
    ensures ok { OnOk result (out.new.items ≡ out.old.items ++ front automaton.now) }
    ensures memory { IsOkUnless result Refusal.Memory }
{
    out.extend_from_slice(b"digraph automaton {\n  rankdir=LR;\n  labelloc=t;\n  label=\"")?;
    write_name_line(automaton.name(), out)?;
    write_acc(automaton.acceptance(), out)?;
    out.extend_from_slice(b"\\n\";\n")?;
    Ok(())
}

/// Appends the initial choices.
pub(crate) fn write_starts(automaton: &Automaton, out: &mut Vec<u8>) -> Result<(), Refusal>
    ensures ok { OnOk result
        (out.new.items ≡ out.old.items ++ numbered start_text 0 automaton.now.starts) }
    ensures memory { IsOkUnless result Refusal.Memory }
{
    for (number, states) in automaton.starts().iter().enumerate() {
        write_start(number, states.as_slice(), out)?;
    }
    Ok(())
}

/// Appends the initial choice of this `number`.
fn write_start(number: usize, states: &[u32], out: &mut Vec<u8>) -> Result<(), Refusal>
    ensures ok { OnOk result (out.new.items ≡ out.old.items ++ start_text number states.now) }
    ensures memory { IsOkUnless result Refusal.Memory }
{
    write_start_point(number, states, out)?;
    for state in states {
        write_start_arrow(number, *state, out)?;
    }
    Ok(())
}

/// Appends the point of the initial choice of this `number`.
fn write_start_point(number: usize, states: &[u32], out: &mut Vec<u8>) -> Result<(), Refusal>
    ensures ok { OnOk result (out.new.items ≡ out.old.items ++ start_point number states.now) }
    ensures memory { IsOkUnless result Refusal.Memory }
{
    out.extend_from_slice(b"  start")?;
    write_number(number as u128, out)?;
    write_point_end(states.len() == 1, out)
}

/// Appends the end of the line of a point, which is invisible if its initial choice lists a single state.
fn write_point_end(single: bool, out: &mut Vec<u8>) -> Result<(), Refusal>
    ensures ok { OnOk result (out.new.items ≡ out.old.items ++ point_end single) }
    ensures memory { IsOkUnless result Refusal.Memory }
{
    if single {
        out.extend_from_slice(b" [shape=point, style=invis];\n")?;
    } else {
        out.extend_from_slice(b" [shape=point];\n")?;
    }
    Ok(())
}

/// Appends an arrow from the point of an initial choice to `state`.
fn write_start_arrow(number: usize, state: u32, out: &mut Vec<u8>) -> Result<(), Refusal>
    ensures ok { OnOk result (out.new.items ≡ out.old.items ++ start_arrow number state) }
    ensures memory { IsOkUnless result Refusal.Memory }
{
    out.extend_from_slice(b"  start")?;
    write_number(number as u128, out)?;
    out.extend_from_slice(b" -> ")?;
    write_number(u128::from(state), out)?;
    out.extend_from_slice(b";\n")?;
    Ok(())
}

/// Appends the states that are defined.
pub(crate) fn write_states(automaton: &Automaton, out: &mut Vec<u8>) -> Result<(), Refusal>
    ensures ok { OnOk result (out.new.items ≡ out.old.items
        ++ flat_map (drawn_state automaton.now.propositions) automaton.now.defined) }
    ensures memory { IsOkUnless result Refusal.Memory }
{
    automaton.keeps_limits();
    for state in automaton.defined() {
        write_state(automaton, state, out)?;
    }
    Ok(())
}

/// Appends `state`.
fn write_state(automaton: &Automaton, state: &State, out: &mut Vec<u8>) -> Result<(), Refusal>
    requires { IsState automaton.now state.now }
    ensures ok { OnOk result
        (out.new.items ≡ out.old.items ++ drawn_state automaton.now.propositions state.now) }
    ensures memory { IsOkUnless result Refusal.Memory }
{
    write_state_number(state.number, out)?;
    write_name_line(state.name.as_slice(), out)?;
    write_state_label(automaton, &state.label, out)?;
    write_marks(state.marks.as_slice(), out)?;
    out.extend_from_slice(b"\"];\n")?;
    Ok(())
}

/// Appends the front of the line of the state with this `number`, up to the number in its label.
fn write_state_number(number: u32, out: &mut Vec<u8>) -> Result<(), Refusal>
    ensures ok { OnOk result (out.new.items ≡ out.old.items ++ state_front number) }
    ensures memory { IsOkUnless result Refusal.Memory }
{
    out.extend_from_slice(b"  ")?;
    write_number(u128::from(number), out)?;
    out.extend_from_slice(b" [label=\"")?;
    write_number(u128::from(number), out)?;
    out.extend_from_slice(b"\\n")?;
    Ok(())
}

/// Appends the line of a state's own `label`, if it has one.
fn write_state_label(
    automaton: &Automaton,
    label: &Option<Label>,
    out: &mut Vec<u8>,
) -> Result<(), Refusal>
    requires { IfSome label.now (IsLabel automaton.now) }
    ensures ok { OnOk result
        (out.new.items ≡ out.old.items ++ state_label_line automaton.now.propositions label.now) }
    ensures memory { IsOkUnless result Refusal.Memory }
{
    automaton.keeps_limits();
    if let Some(label) = label {
        out.push(b'[')?;
        write_named(label, automaton.propositions(), out)?;
        out.extend_from_slice(b"]\\n")?;
    }
    Ok(())
}

/// Appends the line of the sets `marks`, or nothing for no sets.
pub(crate) fn write_marks(marks: &[u32], out: &mut Vec<u8>) -> Result<(), Refusal>
    ensures ok { OnOk result (out.new.items ≡ out.old.items ++ marks_line marks.now) }
    ensures memory { IsOkUnless result Refusal.Memory }
{
    if let [first, others @ ..] = marks {
        out.push(b'{')?;
        write_number(u128::from(*first), out)?;
        write_numbers_after(others, out)?;
        out.extend_from_slice(b"}\\n")?;
    }
    Ok(())
}

/// Appends `numbers` with a space before each.
fn write_numbers_after(numbers: &[u32], out: &mut Vec<u8>) -> Result<(), Refusal>
    ensures ok { OnOk result (out.new.items ≡ out.old.items ++ spaced_numbers numbers.now) }
    ensures memory { IsOkUnless result Refusal.Memory }
{
    for number in numbers {
        out.push(b' ')?;
        write_number(u128::from(*number), out)?;
    }
    Ok(())
}
