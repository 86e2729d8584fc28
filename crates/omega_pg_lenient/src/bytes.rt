ghost use Rattle.std.specs.Prelude.{◌≡◌, ◌≤◌, ◌↔◌, IsTrue, drop, length, slice_index};
ghost use Rattle.omega_text.specs.Bytes.{is_word_byte};
ghost use Rattle.omega_pg_lenient.specs.Format.{BeginsStart};

/// Returns the byte of `bytes` at `at`, or 0 after the last.
#[inline(always)]
pub(crate) fn byte_at(bytes: &[u8], at: usize) -> u8
    ensures { result ≡ slice_index bytes.now at }
{
    if at < bytes.len() { bytes[at] } else { 0 }
}

/// Returns the bytes of `source` from `from` on.
#[inline(always)]
pub(crate) fn tail(source: &[u8], from: usize) -> &[u8]
    requires { from ≤ length source.now }
    ensures { result.now ≡ drop from source.now }
{
    &source[from..]
}

/// Whether a word can continue with `byte`.
fn is_word_byte(byte: u8) -> bool
    ensures { result ≡ is_word_byte byte }
{
    byte.is_ascii_alphanumeric() || byte == b'_' || byte == b'-'
}

/// Whether `bytes` begin with the word `start`.
pub(crate) fn begins_start(bytes: &[u8]) -> bool
    ensures { IsTrue result ↔ BeginsStart bytes.now }
{
    bytes.len() >= 5 && &bytes[..5] == b"start".as_slice() && !is_word_byte(byte_at(bytes, 5))
}
