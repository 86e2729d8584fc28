//! Comparison of bytes with a name.

ghost use Rattle.std.specs.Prelude.{◌≡◌};
ghost use Rattle.std.specs.Str.{bytes_eq};

/// Whether `bytes` are `name`. Names are short and mostly differ in their first byte, so they are compared byte by byte
/// in place.
#[inline(always)]
pub(crate) fn is_name(bytes: &[u8], name: &[u8]) -> bool
    ensures { result ≡ bytes_eq bytes.now name.now }
{
    let mut left = bytes;
    let mut wanted = name;
    while let [byte, following @ ..] = left {
        let [first, others @ ..] = wanted else {
            return false;
        };
        if *byte != *first {
            return false;
        }
        left = following;
        wanted = others;
    }
    wanted.is_empty()
}
