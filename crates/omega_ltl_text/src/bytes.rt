//! Classes of bytes.

ghost use Rattle.std.specs.Prelude.{◌≡◌, slice_index, take};
ghost use Rattle.std.specs.List.{prefix_len};
ghost use Rattle.omega_text.specs.Bytes.{is_digit, is_letter, is_white};
ghost use Rattle.omega_ltl_text.specs.Tokens.{goes_on};

/// Whether `byte` is white space: a space, a tab, a line feed or a carriage return.
pub(crate) fn is_white(byte: u8) -> bool
    ensures { result ≡ is_white byte }
{
    byte == b' ' || byte == b'\t' || byte == b'\n' || byte == b'\r'
}

/// Whether `byte` is a digit.
pub(crate) fn is_digit(byte: u8) -> bool
    ensures { result ≡ is_digit byte }
{
    byte.is_ascii_digit()
}

/// Whether `byte` is a letter or an underscore.
pub(crate) fn is_letter(byte: u8) -> bool
    ensures { result ≡ is_letter byte }
{
    byte.is_ascii_alphabetic() || byte == b'_'
}

/// Whether a word can go on with `byte`: a letter, a digit or an underscore.
pub(crate) fn goes_on(byte: u8) -> bool
    ensures { result ≡ goes_on byte }
{
    is_letter(byte) || is_digit(byte)
}

/// Returns the number of bytes at the front with which a word can go on.
pub(crate) fn word_count(bytes: &[u8]) -> usize
    ensures { result ≡ prefix_len goes_on bytes.now }
{
    bytes.iter().take_while(|byte| goes_on(**byte)).count()
}

/// Returns the byte at `index`, or 0 past the end.
pub(crate) fn byte_at(bytes: &[u8], index: usize) -> u8
    ensures { result ≡ slice_index bytes.now index }
{
    if index < bytes.len() { bytes[index] } else { 0 }
}

/// Returns the first `count` bytes, or all if there are fewer.
pub(crate) fn first_bytes(bytes: &[u8], count: usize) -> &[u8]
    ensures { result.now ≡ take count bytes.now }
{
    if count <= bytes.len() {
        &bytes[..count]
    } else {
        bytes
    }
}
