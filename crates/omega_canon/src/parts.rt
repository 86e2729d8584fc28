//! The parts of lines.

ghost use Rattle.std.specs.Prelude.{◌≡◌, [], ◌∷◌, ◌++◌, IsOkUnless, OnOk, option_map};
ghost use Rattle.std.specs.Option.{option_copied};
ghost use Rattle.omega_canon.specs.Parts.{label_part, marks_part, numbers_after, numbers_joined};
ghost use Rattle.omega_canon.specs.Parts.{quoted_string, spaced, string_part, strings, words};

use omega_hoa_label::{Label, write_label};
use omega_text::{ByteString, Refusal, write_number};

/// Appends a space and bytes between quotes.
pub(crate) fn write_string(bytes: &[u8], out: &mut Vec<u8>) -> Result<(), Refusal>
    ensures ok { OnOk result (out.new.items ≡ out.old.items ++ spaced (quoted_string bytes.now)) }
    ensures memory { IsOkUnless result Refusal.Memory }
{
    out.extend_from_slice(b" \"")?;
    out.extend_from_slice(bytes)?;
    out.push(b'"')?;
    Ok(())
}

/// Appends strings, a space before each.
pub(crate) fn write_strings(texts: &[ByteString], out: &mut Vec<u8>) -> Result<(), Refusal>
    ensures ok { OnOk result (out.new.items ≡ out.old.items ++ strings texts.now) }
    ensures memory { IsOkUnless result Refusal.Memory }
{
    for bytes in texts {
        write_string(bytes.as_slice(), out)?;
    }
    Ok(())
}

/// Appends a space and a word.
pub(crate) fn write_word(bytes: &[u8], out: &mut Vec<u8>) -> Result<(), Refusal>
    ensures ok { OnOk result (out.new.items ≡ out.old.items ++ spaced bytes.now) }
    ensures memory { IsOkUnless result Refusal.Memory }
{
    out.push(b' ')?;
    out.extend_from_slice(bytes)?;
    Ok(())
}

/// Appends words, a space before each.
pub(crate) fn write_words(texts: &[ByteString], out: &mut Vec<u8>) -> Result<(), Refusal>
    ensures ok { OnOk result (out.new.items ≡ out.old.items ++ words texts.now) }
    ensures memory { IsOkUnless result Refusal.Memory }
{
    for bytes in texts {
        write_word(bytes.as_slice(), out)?;
    }
    Ok(())
}

/// Appends `numbers`, with `sign` before each.
fn write_numbers_after(sign: u8, numbers: &[u32], out: &mut Vec<u8>) -> Result<(), Refusal>
    ensures ok { OnOk result (out.new.items ≡ out.old.items ++ numbers_after (sign ∷ []) numbers.now) }
    ensures memory { IsOkUnless result Refusal.Memory }
{
    for number in numbers {
        out.push(sign)?;
        write_number(u128::from(*number), out)?;
    }
    Ok(())
}

/// Appends `numbers`, with `sign` between each two.
pub(crate) fn write_numbers(sign: u8, numbers: &[u32], out: &mut Vec<u8>) -> Result<(), Refusal>
    ensures ok { OnOk result
        (out.new.items ≡ out.old.items ++ numbers_joined (sign ∷ []) numbers.now) }
    ensures memory { IsOkUnless result Refusal.Memory }
{
    if let [first, others @ ..] = numbers {
        write_number(u128::from(*first), out)?;
        write_numbers_after(sign, others, out)?;
    }
    Ok(())
}

/// Appends a space and sets in braces, or nothing for no sets.
pub(crate) fn write_marks(marks: &[u32], out: &mut Vec<u8>) -> Result<(), Refusal>
    ensures ok { OnOk result (out.new.items ≡ out.old.items ++ marks_part marks.now) }
    ensures memory { IsOkUnless result Refusal.Memory }
{
    if let [_, ..] = marks {
        out.extend_from_slice(b" {")?;
        write_numbers(b' ', marks, out)?;
        out.push(b'}')?;
    }
    Ok(())
}

/// Appends a label in brackets and a space, if there is one.
pub(crate) fn write_label_part(label: Option<&Label>, out: &mut Vec<u8>) -> Result<(), Refusal>
    ensures ok { OnOk result
        (out.new.items ≡ out.old.items ++ label_part (option_copied label.entry)) }
    ensures memory { IsOkUnless result Refusal.Memory }
{
    if let Some(label) = label {
        out.push(b'[')?;
        write_label(label, out)?;
        out.extend_from_slice(b"] ")?;
    }
    Ok(())
}

/// Appends a space and a string, if there is one.
pub(crate) fn write_string_part(bytes: Option<&[u8]>, out: &mut Vec<u8>) -> Result<(), Refusal>
    ensures ok { OnOk result
        (out.new.items ≡ out.old.items ++ string_part (option_map (λ bytes. bytes.now) bytes.entry)) }
    ensures memory { IsOkUnless result Refusal.Memory }
{
    if let Some(bytes) = bytes {
        write_string(bytes, out)?;
    }
    Ok(())
}
