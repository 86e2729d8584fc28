//! Bytes of a text, one by one and up to the end of a line.

ghost use Rattle.std.specs.Prelude.{◌≡◌, ◌≤◌, ◌<◌, ◌+◌, true, false, length, IfErr, IfOk};
ghost use Rattle.std.specs.List.{prefix_len};
ghost use Rattle.omega_aiger.specs.Layout.{Layout, byte, either};
ghost use Rattle.omega_aiger.specs.Lines.{bytes_then};
ghost use Rattle.omega_aiger.specs.private.Outcome.{GoesOn, Stops, is_in_line};

use omega_text::{Refusal, TextFault};

/// The byte between the numbers of a line.
pub(crate) const SPACE: u8 = b' ';

/// The byte at the end of a line.
pub(crate) const LINE_FEED: u8 = b'\n';

/// Returns the place after the byte at `at`, which has to be `wanted`.
pub(crate) fn end_of_byte(text: &[u8], at: usize, wanted: u8) -> Result<usize, Refusal>
    requires { at ≤ length text.now }
    ensures within { IfOk result (λ end. end ≤ length text.now) }
    ensures onward { IfOk result (λ end. at < end) }
    ensures read { IfOk result (λ end. (next : Layout) → GoesOn text.now at (byte wanted next) end next) }
    ensures stops { IfErr result (λ refusal. (next : Layout) → Stops text.now at (byte wanted next) refusal) }
{
    if at < text.len() && text[at] == wanted {
        Ok(at + 1)
    } else {
        Err(Refusal::Text(TextFault::Syntax { at }))
    }
}

/// Returns the place after the bytes at `at`, which have to be `wanted`.
pub(crate) fn end_of_bytes(text: &[u8], at: usize, wanted: &[u8]) -> Result<usize, Refusal>
    requires { at ≤ length text.now }
    ensures within { IfOk result (λ end. end ≤ length text.now) }
    ensures read { IfOk result (λ end. (next : Layout)
        → GoesOn text.now at (bytes_then wanted.now next) end next) }
    ensures stops { IfErr result (λ refusal. (next : Layout)
        → Stops text.now at (bytes_then wanted.now next) refusal) }
{
    let mut end = at;
    for byte in wanted {
        end = end_of_byte(text, end, *byte)?;
    }
    Ok(end)
}

/// Whether the byte at `at` is there and is `wanted`.
pub(crate) fn next_is(text: &[u8], at: usize, wanted: u8) -> bool
    requires { at ≤ length text.now }
    ensures within { result ≡ true → at < length text.now }
    ensures first { result ≡ true → (first other : Layout)
        → GoesOn text.now at (either wanted first other) (at + 1) first }
    ensures other { result ≡ false → (first other : Layout)
        → GoesOn text.now at (either wanted first other) at other }
{
    at < text.len() && text[at] == wanted
}

/// Returns the number of bytes at the front that are no line feed.
pub(crate) fn count_in_line(bytes: &[u8]) -> usize
    ensures { result ≡ prefix_len is_in_line bytes.now }
{
    bytes.iter().take_while(|byte| **byte != LINE_FEED).count()
}
