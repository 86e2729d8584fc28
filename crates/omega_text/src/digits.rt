ghost use Rattle.std.specs.Prelude.{◌≡◌, ◌≤◌, ◌<◌, take, length, IfSome, MatchBool, slice_index, true};
ghost use Rattle.std.specs.List.{prefix_len};
ghost use Rattle.std.specs.Str.Parse.{digits_value};
ghost use Rattle.omega_text.specs.Bytes.{is_digit};
ghost use Rattle.omega_text.specs.Limits.{most_number};

use crate::limits::MOST_NUMBER;

/// A run of digits shorter than this has a value of at most the greatest number.
const MANY_DIGITS: usize = 9;

/// Returns the number of digits at the front, and their value. If the value is above the greatest number, some value
/// above it is returned.
#[inline(always)]
pub(crate) fn front_digits(bytes: &[u8]) -> (usize, u64)
    ensures count { result.0 ≡ prefix_len is_digit bytes.now }
    ensures value { result.1 ≤ most_number → result.1 ≡ digits_value 10 (take result.0 bytes.now) }
    ensures great { most_number < result.1 → most_number < digits_value 10 (take result.0 bytes.now) }
{
    if bytes.len() > 1 && bytes[0].is_ascii_digit() && !bytes[1].is_ascii_digit() {
        // Most numbers have one digit.
        return (1, u64::from(bytes[0] - b'0'));
    }
    let mut value = 0u64;
    for (count, byte) in bytes.iter().enumerate() {
        if !byte.is_ascii_digit() {
            return (count, value);
        }
        if value <= MOST_NUMBER as u64 {
            value = value * 10 + u64::from(*byte - b'0');
        }
    }
    (bytes.len(), value)
}

/// Returns what `front_digits` returns, if a byte that is no digit ends the digits, and they are so few that no value
/// needs to be compared.
#[inline(always)]
pub(crate) fn few_digits(bytes: &[u8]) -> Option<(usize, u64)>
    requires some { 0 < length bytes.now }
    requires digit { is_digit (slice_index bytes.now 0) ≡ true }
    ensures count { IfSome result (λ found. found.0 ≡ prefix_len is_digit bytes.now) }
    ensures ended { IfSome result (λ found. found.0 < length bytes.now) }
    ensures value { IfSome result (λ found. found.1 ≡ digits_value 10 (take found.0 bytes.now)) }
    ensures small { IfSome result (λ found. found.1 ≤ most_number) }
{
    let mut value = u64::from(bytes[0] - b'0');
    for count in 1..bytes.len().min(MANY_DIGITS) {
        if !bytes[count].is_ascii_digit() {
            return Some((count, value));
        }
        value = value * 10 + u64::from(bytes[count] - b'0');
    }
    None
}

/// Whether the first `count` bytes, which are digits, begin with a zero and are more than one.
pub(crate) fn has_needless_zero(bytes: &[u8], count: usize) -> bool
    requires { 0 < length bytes.now }
    ensures { MatchBool result
        ((slice_index bytes.now 0 ≡ 48) × (1 < count))
        (slice_index bytes.now 0 ≡ 48 → count ≤ 1) }
{
    bytes[0] == b'0' && count > 1
}
