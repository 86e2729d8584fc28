//! The header of a winner's automaton.

ghost use Rattle.std.specs.Prelude.{◌≡◌, ◌++◌, IsOkUnless, OnOk, map, true};
ghost use Rattle.std.specs.List.{flat_map};
ghost use Rattle.omega_canon.specs.HeaderText.{acceptance_line, header_text, propositions_line};
ghost use Rattle.omega_canon.specs.HeaderText.{start_line, states_line, unknown_line};
ghost use Rattle.omega_hoa_acceptance.specs.Acceptance as acc;
ghost use Rattle.omega_canon.specs.Parts.{strings};
ghost use Rattle.omega_synth_text.specs.Winner.{controllable_item, number_of};
ghost use Rattle.omega_synth_text.specs.private.Parts as parts;

use crate::parts::{Winner, new_number};
use omega_text::{ByteString, Refusal, write_number};

/// Appends all lines before the body.
pub(crate) fn write_header(winner: &Winner<'_>, out: &mut Vec<u8>) -> Result<(), Refusal>
    requires { parts.IsReady winner.now }
    ensures text { OnOk result
        (out.new.items ≡ out.old.items ++ header_text (parts.automaton_by winner.now)) }
    ensures memory { IsOkUnless result Refusal.Memory }
{
    out.extend_from_slice(b"HOA: v1\n")?;
    write_count(winner.count, out)?;
    write_starts(winner, out)?;
    write_propositions(winner.automaton.propositions(), out)?;
    out.extend_from_slice(b"acc-name: all\n")?;
    write_acceptance(out)?;
    write_controllable(winner.controlled, out)?;
    Ok(())
}

/// Appends the line `States:`.
fn write_count(count: u32, out: &mut Vec<u8>) -> Result<(), Refusal>
    ensures text { OnOk result (out.new.items ≡ out.old.items ++ states_line count) }
    ensures memory { IsOkUnless result Refusal.Memory }
{
    out.extend_from_slice(b"States: ")?;
    write_number(u128::from(count), out)?;
    out.push(b'\n')?;
    Ok(())
}

/// Appends the line `Acceptance:` of all words.
fn write_acceptance(out: &mut Vec<u8>) -> Result<(), Refusal>
    ensures text { OnOk result
        (out.new.items ≡ out.old.items ++ acceptance_line 0 (acc.constant true)) }
    ensures memory { IsOkUnless result Refusal.Memory }
{
    out.extend_from_slice(b"Acceptance: ")?;
    write_number(0, out)?;
    out.extend_from_slice(b" t\n")?;
    Ok(())
}

/// Appends a line `Start:` for each start.
fn write_starts(winner: &Winner<'_>, out: &mut Vec<u8>) -> Result<(), Refusal>
    requires { parts.IsReady winner.now }
    ensures text { OnOk result (out.new.items ≡ out.old.items
        ++ flat_map start_line (map (λ start. map (number_of (parts.reached_by winner.now)) start)
        winner.now.automaton.now.starts)) }
    ensures memory { IsOkUnless result Refusal.Memory }
{
    for start in winner.automaton.starts() {
        out.extend_from_slice(b"Start: ")?;
        write_number(
            u128::from(new_number(winner.numbers, start.as_slice()[0])),
            out,
        )?;
        out.push(b'\n')?;
    }
    Ok(())
}

/// Appends the line `AP:`.
fn write_propositions(names: &[ByteString], out: &mut Vec<u8>) -> Result<(), Refusal>
    ensures text { OnOk result (out.new.items ≡ out.old.items ++ propositions_line names.now) }
    ensures memory { IsOkUnless result Refusal.Memory }
{
    out.extend_from_slice(b"AP: ")?;
    write_number(names.len() as u128, out)?;
    write_strings(names, out)?;
    out.push(b'\n')?;
    Ok(())
}

/// Appends strings in quotes, a space before each.
fn write_strings(texts: &[ByteString], out: &mut Vec<u8>) -> Result<(), Refusal>
    ensures text { OnOk result (out.new.items ≡ out.old.items ++ strings texts.now) }
    ensures memory { IsOkUnless result Refusal.Memory }
{
    for bytes in texts {
        out.extend_from_slice(b" \"")?;
        out.extend_from_slice(bytes.as_slice())?;
        out.push(b'"')?;
    }
    Ok(())
}

/// Appends the line `controllable-AP:`.
fn write_controllable(controlled: &[u32], out: &mut Vec<u8>) -> Result<(), Refusal>
    ensures text { OnOk result
        (out.new.items ≡ out.old.items ++ unknown_line (controllable_item controlled.now)) }
    ensures memory { IsOkUnless result Refusal.Memory }
{
    out.extend_from_slice(b"controllable-AP:")?;
    for number in controlled {
        out.push(b' ')?;
        write_number(u128::from(*number), out)?;
    }
    out.push(b'\n')?;
    Ok(())
}
