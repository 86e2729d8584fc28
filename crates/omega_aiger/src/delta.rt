//! Numbers of the binary form: seven bits a byte, the lowest first, all but the last byte with the high bit set.

ghost use Rattle.std.specs.Prelude.{◌≡◌, ◌≤◌, ◌<◌, ◌^◌, ◌+◌, ℕ, length, IfErr, IfOk};
ghost use Rattle.std.specs.List.{prefix_len};
ghost use Rattle.omega_aiger.specs.Deltas.{delta_value, is_high};
ghost use Rattle.omega_aiger.specs.Layout.{Layout, delta};
ghost use Rattle.omega_aiger.specs.private.Outcome.{GoesOn, Stops};

use omega_text::{Refusal, TextFault};

/// The most bytes of a delta.
pub(crate) const MOST_BYTES: usize = 5;

/// Reads the delta at the place `at`. Returns it and the place after it.
pub(crate) fn delta_at(text: &[u8], at: usize) -> Result<(u32, usize), Refusal>
    requires { at ≤ length text.now }
    ensures within { IfOk result (λ found. found.1 ≤ length text.now) }
    ensures read { IfOk result (λ found. (next : ℕ → Layout)
        → GoesOn text.now at (delta next) found.1 (next found.0)) }
    ensures stops { IfErr result (λ refusal. (next : ℕ → Layout)
        → Stops text.now at (delta next) refusal) }
{
    let rest = &text[at..];
    let high = high_count(rest);
    if high >= MOST_BYTES {
        return Err(Refusal::Text(TextFault::Number { at }));
    }
    if high >= rest.len() {
        return Err(Refusal::Text(TextFault::Syntax { at: text.len() }));
    }
    match u32::try_from(value_of(&rest[..high + 1])) {
        Ok(value) => Ok((value, at + high + 1)),
        Err(_) => Err(Refusal::Text(TextFault::Number { at })),
    }
}

/// Returns the number of bytes at the front with the high bit.
fn high_count(bytes: &[u8]) -> usize
    ensures { result ≡ prefix_len is_high bytes.now }
{
    bytes.iter().take_while(|byte| **byte >= 128).count()
}

/// Returns the value of at most five bytes.
fn value_of(bytes: &[u8]) -> u64
    requires { length bytes.now ≤ 5 }
    ensures { result ≡ delta_value bytes.now }
{
    let mut value = 0u64;
    let mut left = bytes.len();
    while left > 0 {
        left -= 1;
        value = u64::from(bytes[left] % 128) + 128 * value;
    }
    value
}
