//! Numbers of a text in decimal.

ghost use Rattle.std.specs.Prelude.{◌≡◌, ◌≤◌, ◌<◌, ℕ, true, false, length, IfErr, IfNone, IfOk, IfSome};
ghost use Rattle.std.specs.List.{AllPass, prefix_len};
ghost use Rattle.std.specs.Str.Parse.{digits_value};
ghost use Rattle.omega_aiger.specs.Forms.{count_then};
ghost use Rattle.omega_aiger.specs.Layout.{Layout, byte, number};
ghost use Rattle.omega_aiger.specs.private.Outcome.{GoesOn, Stops, is_number};
ghost use Rattle.omega_text.specs.Bytes.{is_digit};
ghost use Rattle.omega_text.specs.Limits.{most_number};

use crate::line::{SPACE, end_of_byte};
use omega_text::{MOST_NUMBER, Refusal, TextFault};

/// Reads the number at the place `at` and the byte after it, which has to be `ender`. Returns the number and the place
/// after the byte.
pub(crate) fn number_before(text: &[u8], at: usize, ender: u8) -> Result<(u32, usize), Refusal>
    requires { at ≤ length text.now }
    ensures within { IfOk result (λ found. found.1 ≤ length text.now) }
    ensures onward { IfOk result (λ found. at < found.1) }
    ensures read { IfOk result (λ found. (next : ℕ → Layout)
        → GoesOn text.now at (number (λ n. byte ender (next n))) found.1 (next found.0)) }
    ensures stops { IfErr result (λ refusal. (next : ℕ → Layout)
        → Stops text.now at (number (λ n. byte ender (next n))) refusal) }
{
    let (value, end) = number_at(text, at)?;
    let end = end_of_byte(text, end, ender)?;
    Ok((value, end))
}

/// Reads a space and a number. Returns the number and the place after it.
pub(crate) fn count_at(text: &[u8], at: usize) -> Result<(u32, usize), Refusal>
    requires { at ≤ length text.now }
    ensures within { IfOk result (λ found. found.1 ≤ length text.now) }
    ensures read { IfOk result (λ found. (next : ℕ → Layout)
        → GoesOn text.now at (count_then next) found.1 (next found.0)) }
    ensures stops { IfErr result (λ refusal. (next : ℕ → Layout)
        → Stops text.now at (count_then next) refusal) }
{
    let start = end_of_byte(text, at, SPACE)?;
    number_at(text, start)
}

/// Reads the number at the place `at`. Returns it and the place after its digits.
pub(crate) fn number_at(text: &[u8], at: usize) -> Result<(u32, usize), Refusal>
    requires { at ≤ length text.now }
    ensures within { IfOk result (λ found. found.1 ≤ length text.now) }
    ensures onward { IfOk result (λ found. at < found.1) }
    ensures read { IfOk result (λ found. (next : ℕ → Layout)
        → GoesOn text.now at (number next) found.1 (next found.0)) }
    ensures stops { IfErr result (λ refusal. (next : ℕ → Layout)
        → Stops text.now at (number next) refusal) }
{
    let rest = &text[at..];
    let count = digit_count(rest);
    if count == 0 {
        return Err(Refusal::Text(TextFault::Syntax { at }));
    }
    match number_of(&rest[..count]) {
        Some(value) => Ok((value, at + count)),
        None => Err(Refusal::Text(TextFault::Number { at })),
    }
}

/// Returns the number of digits at the front.
fn digit_count(bytes: &[u8]) -> usize
    ensures { result ≡ prefix_len is_digit bytes.now }
{
    bytes
        .iter()
        .take_while(|byte| byte.is_ascii_digit())
        .count()
}

/// Returns the value of `digits`, or `None` if they have a needless zero or a value over the greatest number.
fn number_of(digits: &[u8]) -> Option<u32>
    requires digits { AllPass is_digit digits.now }
    requires some { 0 < length digits.now }
    ensures some { IfSome result (λ value. value ≡ digits_value 10 digits.now) }
    ensures number { IfSome result (λ value. is_number digits.now ≡ true) }
    ensures none { IfNone result (is_number digits.now ≡ false) }
{
    if digits[0] == b'0' && digits.len() > 1 {
        return None;
    }
    let value = digits_value(digits);
    if value > MOST_NUMBER as u64 {
        return None;
    }
    Some(value as u32)
}

/// Returns the value of digits, or some value above the greatest number if their value is above it.
fn digits_value(digits: &[u8]) -> u64
    requires { AllPass is_digit digits.now }
    ensures exact { result ≤ most_number → result ≡ digits_value 10 digits.now }
    ensures great { most_number < result → most_number < digits_value 10 digits.now }
{
    let mut value = 0u64;
    for digit in digits {
        if value <= MOST_NUMBER as u64 {
            value = value * 10 + u64::from(*digit - b'0');
        }
    }
    value
}
