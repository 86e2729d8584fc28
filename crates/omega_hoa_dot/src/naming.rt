//! Names of propositions in place of their numbers.

ghost use Rattle.std.specs.Prelude.{◌≡◌, ◌≤◌, true, ◌++◌, IfOk, IfSome, IsOkUnless, None, OnOk, length};
ghost use Rattle.omega_hoa_label.specs.Label.{propositions};
ghost use Rattle.omega_hoa_automaton.specs.Automaton.{AreBelow};
ghost use Rattle.omega_hoa_automaton.specs.Limits.{most_propositions};
ghost use Rattle.omega_text.specs.Bytes.{is_digit};
ghost use Rattle.omega_hoa_dot.specs.Expressions.{named_text};
ghost use Rattle.omega_hoa_dot.specs.private.layout.Naming.{AreOwed, pending_name, sign_text};
ghost use Rattle.omega_hoa_dot.specs.private.layout.Naming.{with_digit, with_names};

use crate::names::write_name_at;
use omega_hoa_automaton::MOST_PROPOSITIONS;
use omega_hoa_label::{Label, write_label};
use omega_text::{ByteString, Refusal};

/// Appends the text of `label` with the `names` of its propositions.
pub(crate) fn write_named(
    label: &Label,
    names: &[ByteString],
    out: &mut Vec<u8>,
) -> Result<(), Refusal>
    requires few { length names.now ≤ most_propositions }
    requires below { AreBelow (length names.now) (propositions label.now) }
    ensures ok { OnOk result (out.new.items ≡ out.old.items ++ named_text names.now label.now) }
    ensures memory { IsOkUnless result Refusal.Memory }
{
    let mut text = Vec::new(*out.allocator());
    write_label(label, &mut text)?;
    write_with_names(text.as_slice(), names, out)?;
    Ok(())
}

/// Appends the `text` of a label, with the name of its proposition in place of each number.
fn write_with_names(text: &[u8], names: &[ByteString], out: &mut Vec<u8>) -> Result<(), Refusal>
    ensures ok { OnOk result (out.new.items ≡ out.old.items ++ with_names names.now None text.now) }
    ensures memory { IsOkUnless result Refusal.Memory }
{
    let mut number = None;
    for byte in text {
        number = pass(number, *byte, names, out)?;
    }
    write_pending(number, names, out)
}

/// Passes `byte`: a digit is added to `number`, and another byte is written after the name of that number.
fn pass(
    number: Option<u32>,
    byte: u8,
    names: &[ByteString],
    out: &mut Vec<u8>,
) -> Result<Option<u32>, Refusal>
    requires { IfSome number (λ number. number ≤ most_propositions) }
    ensures ok { IfOk result (λ next. AreOwed names.now out.old.items out.new.items number byte next) }
    ensures small { IfOk result (λ next. IfSome next (λ number. number ≤ most_propositions)) }
    ensures memory { IsOkUnless result Refusal.Memory }
{
    if byte.is_ascii_digit() {
        return Ok(Some(with_digit(number, byte)));
    }
    write_pending(number, names, out)?;
    write_sign(byte, out)?;
    Ok(None)
}

/// Returns `number`, whose digits have been passed, with one digit more.
fn with_digit(number: Option<u32>, byte: u8) -> u32
    requires number { IfSome number (λ number. number ≤ most_propositions) }
    requires digit { is_digit byte ≡ true }
    ensures number { result ≡ with_digit number byte }
    ensures small { result ≤ most_propositions }
{
    (number.unwrap_or(0) * 10 + u32::from(byte - b'0')).min(MOST_PROPOSITIONS as u32)
}

/// Appends the name of the proposition whose `number` has been passed, if there is one.
fn write_pending(
    number: Option<u32>,
    names: &[ByteString],
    out: &mut Vec<u8>,
) -> Result<(), Refusal>
    ensures ok { OnOk result (out.new.items ≡ out.old.items ++ pending_name names.now number) }
    ensures memory { IsOkUnless result Refusal.Memory }
{
    match number {
        Some(number) => write_name_at(names, number as usize, out),
        None => Ok(()),
    }
}

/// Appends `byte`, a sign of a label.
fn write_sign(byte: u8, out: &mut Vec<u8>) -> Result<(), Refusal>
    ensures ok { OnOk result (out.new.items ≡ out.old.items ++ sign_text byte) }
    ensures memory { IsOkUnless result Refusal.Memory }
{
    if byte == b'&' {
        out.extend_from_slice(b" & ")?;
    } else if byte == b'|' {
        out.extend_from_slice(b" | ")?;
    } else {
        out.push(byte)?;
    }
    Ok(())
}
