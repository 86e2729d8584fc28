//! Lists that occur for the first time.

ghost use Rattle.std.specs.Prelude.{◌≡◌, ◌<◌, ◌^◌, [], IfOk, IsOkUnless, length};
ghost use Rattle.omega_synth_game.specs.private.Firsts.{AreFirstPlaces};

use indexmap::IndexSet;
use omega_text::{Numbers, Refusal};
use std::alloc::Global;

/// Returns the places of those of `lists` that occur at no place before, in rising order. Linear in the sum of the
/// lengths, as the lists seen are kept in a hashed set.
pub(crate) fn first_places(alloc: Global, lists: &[Numbers]) -> Result<Vec<u32>, Refusal>
    requires { length lists.now < 2 ^ 32 }
    ensures firsts { IfOk result (λ firsts. AreFirstPlaces lists.now (length lists.now) firsts.items) }
    ensures memory { IsOkUnless result Refusal.Memory }
{
    let mut seen = IndexSet::new(alloc);
    places_of_new(alloc, lists, &mut seen)
}

/// Returns the places of those of `lists` that occur at no place before, in rising order. Adds them to the empty set
/// `seen`.
fn places_of_new<'a>(
    alloc: Global,
    lists: &'a [Numbers],
    seen: &mut IndexSet<&'a [u32]>,
) -> Result<Vec<u32>, Refusal>
    requires few { length lists.now < 2 ^ 32 }
    requires empty { seen.old.keys ≡ [] }
    ensures firsts { IfOk result (λ firsts. AreFirstPlaces lists.now (length lists.now) firsts.items) }
    ensures memory { IsOkUnless result Refusal.Memory }
{
    let mut firsts = Vec::new(alloc);
    for (place, list) in lists.iter().enumerate() {
        if seen.insert(list.as_slice())? {
            firsts.push(place as u32)?;
        }
    }
    Ok(firsts)
}
