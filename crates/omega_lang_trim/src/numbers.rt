//! The new numbers of the states that stay.

ghost use Rattle.std.specs.Prelude.{◌≡◌, map, IfOk, IsOkUnless};
ghost use Rattle.std.specs.List.{list_all};
ghost use Rattle.omega_lang_trim.specs.Trimmed.{new_number, stays as stays_among};
ghost use Rattle.omega_lang_trim.specs.private.Placed.{IsFew};

use crate::places::place_in;
use indexmap::IndexSet;
use omega_hoa_automaton::Refusal;
use omega_text::Numbers;
use std::alloc::Global;

/// Whether the state with the number `number` stays.
pub(crate) fn stays(kept: &IndexSet<u32>, number: u32) -> bool
    ensures { result ≡ stays_among kept.now.keys number }
{
    kept.contains(&number)
}

/// Whether all states of `numbers` stay.
pub(crate) fn all_stay(kept: &IndexSet<u32>, numbers: &[u32]) -> bool
    ensures { result ≡ list_all (stays_among kept.now.keys) numbers.now }
{
    for number in numbers {
        if !stays(kept, *number) {
            return false;
        }
    }
    true
}

/// Returns the new numbers of the states of `numbers`.
pub(crate) fn new_numbers_of(
    alloc: Global,
    kept: &IndexSet<u32>,
    numbers: &[u32],
) -> Result<Numbers, Refusal>
    requires { IsFew kept.now.keys }
    ensures numbers { IfOk result (λ new. new ≡ map (new_number kept.now.keys) numbers.now) }
    ensures memory { IsOkUnless result Refusal.Memory }
{
    let mut new = Numbers::new();
    for number in numbers {
        new.push(alloc, place_in(kept, *number))?;
    }
    Ok(new)
}
