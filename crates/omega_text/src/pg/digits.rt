ghost use Rattle.std.specs.Prelude.{◌≡◌, ◌<◌, take, length, slice_index, true};
ghost use Rattle.std.specs.List.{prefix_len};
ghost use Rattle.std.specs.Str.Parse.{digits_value};
ghost use Rattle.omega_text.specs.Bytes.{is_digit};

/// A run of digits shorter than this has a value far below 2^64.
const MANY_DIGITS: usize = 12;

/// Returns the number of digits at the front and their value, if they are few, another byte ends them, and `bytes` has
/// at least `MANY_DIGITS`. Otherwise returns 0 digits. With that length no index needs to be compared with it.
#[inline(always)]
pub(crate) fn ended_digits(bytes: &[u8]) -> (usize, u64)
    requires some { 0 < length bytes.now }
    requires digit { is_digit (slice_index bytes.now 0) ≡ true }
    ensures count { 0 < result.0 → result.0 ≡ prefix_len is_digit bytes.now }
    ensures value { 0 < result.0 → result.1 ≡ digits_value 10 (take result.0 bytes.now) }
{
    if bytes.len() < MANY_DIGITS {
        return (0, 0);
    }
    let mut value = u64::from(bytes[0] - b'0');
    for count in 1..MANY_DIGITS {
        let digit = bytes[count];
        if !digit.is_ascii_digit() {
            return (count, value);
        }
        value = value * 10 + u64::from(digit - b'0');
    }
    (0, 0)
}
