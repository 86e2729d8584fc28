//! Lines of labels, and names in them.

ghost use Rattle.std.specs.Prelude.{◌≡◌, ◌++◌, IsOkUnless, OnOk, option_map};
ghost use Rattle.omega_text.specs.Labels.{escaped, escaped_byte, escaped_bytes, name_label_line};

use crate::Refusal;

/// Appends `name` so that DOT draws it: in UTF-8, with U+FFFD in place of bytes that are not, as
/// `String::from_utf8_lossy` reads them, and with a space for each control byte except a line feed. After
/// [Refusal::Memory] part of it may be appended.
pub fn write_escaped(name: &[u8], out: &mut Vec<u8>) -> Result<(), Refusal>
    ensures ok { OnOk result (out.new.items ≡ out.old.items ++ escaped name.now) }
    ensures memory { IsOkUnless result Refusal.Memory }
{
    for chunk in name.utf8_chunks() {
        write_escaped_bytes(chunk.valid().as_bytes(), out)?;
        if !chunk.invalid().is_empty() {
            out.extend_from_slice(b"\xef\xbf\xbd")?;
        }
    }
    Ok(())
}

/// Appends `bytes`, each escaped.
fn write_escaped_bytes(bytes: &[u8], out: &mut Vec<u8>) -> Result<(), Refusal>
    ensures ok { OnOk result (out.new.items ≡ out.old.items ++ escaped_bytes bytes.now) }
    ensures memory { IsOkUnless result Refusal.Memory }
{
    for byte in bytes {
        write_escaped_byte(*byte, out)?;
    }
    Ok(())
}

/// Appends a byte of a name, escaped.
fn write_escaped_byte(byte: u8, out: &mut Vec<u8>) -> Result<(), Refusal>
    ensures ok { OnOk result (out.new.items ≡ out.old.items ++ escaped_byte byte) }
    ensures memory { IsOkUnless result Refusal.Memory }
{
    if byte == b'"' {
        out.extend_from_slice(b"\\\"")?;
    } else if byte == b'\\' {
        out.extend_from_slice(b"\\\\")?;
    } else if byte == b'&' {
        out.extend_from_slice(b"&amp;")?;
    } else if byte == b'\n' {
        out.extend_from_slice(b"\\n")?;
    } else if byte < b' ' {
        out.push(b' ')?;
    } else {
        out.push(byte)?;
    }
    Ok(())
}

/// Appends the line of `name`, if there is one. After [Refusal::Memory] part of it may be appended.
pub fn write_name_line(name: Option<&[u8]>, out: &mut Vec<u8>) -> Result<(), Refusal>
    ensures ok { OnOk result
        (out.new.items ≡ out.old.items ++ name_label_line (option_map (λ name. name.now) name.entry)) }
    ensures memory { IsOkUnless result Refusal.Memory }
{
    if let Some(name) = name {
        write_escaped(name, out)?;
        out.extend_from_slice(b"\\n")?;
    }
    Ok(())
}
