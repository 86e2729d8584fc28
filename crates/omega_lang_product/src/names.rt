//! The propositions of two automata, joined by their names.

ghost use Rattle.std.specs.Prelude.{◌≡◌, ◌<◌, ◌^◌, length, IfOk, IsOkUnless};
ghost use Rattle.std.specs.List.{list_any, position_or_len};
ghost use Rattle.std.specs.Str.{bytes_eq};
ghost use Rattle.omega_lang_product.specs.Joining.{joined_names as names_of_both, places_among as places_of};

use omega_text::{ByteString, Refusal, copy_of_strings};
use std::alloc::Global;

/// Returns `names`, and then those `others` that are not among them. Takes the time of comparing each two.
pub fn joined_names(
    alloc: Global,
    names: &[ByteString],
    others: &[ByteString],
) -> Result<Vec<ByteString>, Refusal>
    ensures ok { IfOk result (λ joined. joined.items ≡ names_of_both names.now others.now) }
    ensures memory { IsOkUnless result Refusal.Memory }
{
    let mut joined = copy_of_strings(alloc, names)?;
    for name in others {
        if !is_among(name.as_slice(), names) {
            joined.push(ByteString::from_slice(alloc, name.as_slice())?)?;
        }
    }
    Ok(joined)
}

/// Whether one of `names` has these bytes.
fn is_among(bytes: &[u8], names: &[ByteString]) -> bool
    ensures { result ≡ list_any (bytes_eq bytes.now) names.now }
{
    for name in names {
        if bytes == name.as_slice() {
            return true;
        }
    }
    false
}

/// Returns the position in `joined` of each of `names`, or the length of `joined` for one that is not there. Takes the
/// time of comparing each two.
pub fn places_among(
    alloc: Global,
    joined: &[ByteString],
    names: &[ByteString],
) -> Result<Vec<u32>, Refusal>
    requires { length joined.now < 2 ^ 32 }
    ensures ok { IfOk result (λ places. places.items ≡ places_of joined.now names.now) }
    ensures memory { IsOkUnless result Refusal.Memory }
{
    let mut places = Vec::with_capacity(alloc, names.len())?;
    for name in names {
        places.push(place_of(joined, name.as_slice()))?;
    }
    Ok(places)
}

/// Returns the position of `name` in `joined`, or the length of `joined` if it is not there.
fn place_of(joined: &[ByteString], name: &[u8]) -> u32
    requires { length joined.now < 2 ^ 32 }
    ensures { result ≡ position_or_len (bytes_eq name.now) joined.now }
{
    for (place, other) in joined.iter().enumerate() {
        if name == other.as_slice() {
            return place as u32;
        }
    }
    joined.len() as u32
}
