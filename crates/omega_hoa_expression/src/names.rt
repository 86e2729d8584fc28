//! The names of an expression, one after another.

ghost use Rattle.std.specs.Prelude.{◌≡◌, drop, take};

/// Returns the first `count` bytes, or all if there are fewer.
#[inline]
pub fn first_bytes(bytes: &[u8], count: usize) -> &[u8]
    ensures { result.now ≡ take count bytes.now }
{
    if count < bytes.len() {
        &bytes[..count]
    } else {
        bytes
    }
}

/// Returns the bytes after the first `count`.
#[inline]
pub fn bytes_after(bytes: &[u8], count: usize) -> &[u8]
    ensures { result.now ≡ drop count bytes.now }
{
    if count < bytes.len() {
        &bytes[count..]
    } else {
        &[]
    }
}
