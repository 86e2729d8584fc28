//! The line that names a place of a text.

ghost use Rattle.std.specs.Prelude.{◌≡◌, ◌+◌, ◌<◌, ◌++◌, IfOk, IsOkUnless};
ghost use Rattle.std.specs.Prelude.{OnOk, count_by, drop, length, take};
ghost use Rattle.std.specs.List.{flat_map, prefix_len, suffix_len};
ghost use Rattle.omega_pg_diagnostics.specs.Places.{hexadecimal_digit, is_black, is_in_line, is_line_feed};
ghost use Rattle.omega_pg_diagnostics.specs.Places.{is_plain, place_line, quoted, shown, shown_byte, word_of};

use omega_text::{Refusal, write_number};
use std::alloc::Global;

/// The most bytes of a word that are shown.
const MOST_SHOWN: usize = 40;

/// Returns the line that says what is at the byte `at` of a text, with its line feed. Refused with [Refusal::Memory].
///
/// Lines and columns are counted from 1, columns in bytes. The line shows the bytes up to white space, at least one and
/// at most 40, or `end of the text`. The cost is linear in the bytes before them.
pub fn place_line(alloc: Global, text: &[u8], at: usize) -> Result<Vec<u8>, Refusal>
    ensures line { IfOk result (λ line. line.items ≡ place_line text.now at) }
    ensures memory { IsOkUnless result Refusal.Memory }
{
    let (before, from) = split(text, at);
    let mut line = Vec::new(alloc);
    line.extend_from_slice(b"omega: line ")?;
    write_number(line_feeds(before) as u128 + 1, &mut line)?;
    line.extend_from_slice(b", column ")?;
    write_number(bytes_since_line_feed(before) as u128 + 1, &mut line)?;
    line.extend_from_slice(b": ")?;
    write_shown(from, &mut line)?;
    line.extend_from_slice(b"\n")?;
    Ok(line)
}

/// Returns the bytes before the place `at`, and those from it on, which are none if it is past the end.
fn split(text: &[u8], at: usize) -> (&[u8], &[u8])
    ensures before { result.0.now ≡ take at text.now }
    ensures from { result.1.now ≡ drop at text.now }
{
    if at < text.len() {
        text.split_at(at)
    } else {
        text.split_at(text.len())
    }
}

/// Returns the number of line feeds.
fn line_feeds(bytes: &[u8]) -> usize
    ensures { result ≡ count_by is_line_feed bytes.now }
{
    bytes.iter().filter(|byte| **byte == b'\n').count()
}

/// Returns the number of bytes after the last line feed, or of all.
fn bytes_since_line_feed(bytes: &[u8]) -> usize
    ensures { result ≡ suffix_len is_in_line bytes.now }
{
    bytes
        .iter()
        .rev()
        .take_while(|byte| is_in_line(**byte))
        .count()
}

fn is_in_line(byte: u8) -> bool
    ensures { result ≡ is_in_line byte }
{
    byte != b'\n'
}

/// Appends what is at the front of `bytes`.
fn write_shown(bytes: &[u8], out: &mut Vec<u8>) -> Result<(), Refusal>
    ensures ok { OnOk result (out.new.items ≡ out.old.items ++ shown bytes.now) }
    ensures memory { IsOkUnless result Refusal.Memory }
{
    if bytes.is_empty() {
        out.extend_from_slice(b"end of the text")?;
        Ok(())
    } else {
        write_quoted(word(bytes), out)
    }
}

/// Returns the bytes up to white space or the end, but at least one.
fn word(bytes: &[u8]) -> &[u8]
    requires { 0 < length bytes.now }
    ensures { result.now ≡ word_of bytes.now }
{
    &bytes[..black_count(bytes).max(1)]
}

/// Returns the number of bytes at the front that are no white space.
fn black_count(bytes: &[u8]) -> usize
    ensures { result ≡ prefix_len is_black bytes.now }
{
    bytes.iter().take_while(|byte| is_black(**byte)).count()
}

/// Whether a byte is no white space.
fn is_black(byte: u8) -> bool
    ensures { result ≡ is_black byte }
{
    byte != b' ' && byte != b'\t' && byte != b'\n' && byte != b'\r'
}

/// Appends `word` between quotes, and dots if more bytes follow than are shown.
fn write_quoted(word: &[u8], out: &mut Vec<u8>) -> Result<(), Refusal>
    ensures ok { OnOk result (out.new.items ≡ out.old.items ++ quoted word.now) }
    ensures memory { IsOkUnless result Refusal.Memory }
{
    let (front, _) = split(word, MOST_SHOWN);
    out.extend_from_slice(b"'")?;
    write_bytes(front, out)?;
    out.extend_from_slice(b"'")?;
    if MOST_SHOWN < word.len() {
        out.extend_from_slice(b"...")?;
    }
    Ok(())
}

/// Appends `bytes`, each as it is shown.
fn write_bytes(bytes: &[u8], out: &mut Vec<u8>) -> Result<(), Refusal>
    ensures ok { OnOk result (out.new.items ≡ out.old.items ++ flat_map shown_byte bytes.now) }
    ensures memory { IsOkUnless result Refusal.Memory }
{
    for byte in bytes {
        write_byte(*byte, out)?;
    }
    Ok(())
}

/// Appends a byte as it is shown.
fn write_byte(byte: u8, out: &mut Vec<u8>) -> Result<(), Refusal>
    ensures ok { OnOk result (out.new.items ≡ out.old.items ++ shown_byte byte) }
    ensures memory { IsOkUnless result Refusal.Memory }
{
    if is_plain(byte) {
        out.push(byte)?;
    } else {
        out.extend_from_slice(b"\\x")?;
        out.push(hexadecimal_digit(byte / 16))?;
        out.push(hexadecimal_digit(byte % 16))?;
    }
    Ok(())
}

/// Whether a byte is shown as it is.
fn is_plain(byte: u8) -> bool
    ensures { result ≡ is_plain byte }
{
    byte >= 32 && byte <= 126 && byte != b'\'' && byte != b'\\'
}

/// Returns the hexadecimal digit with this `value`.
fn hexadecimal_digit(value: u8) -> u8
    requires { value < 16 }
    ensures { result ≡ hexadecimal_digit value }
{
    if value < 10 {
        b'0' + value
    } else {
        b'a' - 10 + value
    }
}
