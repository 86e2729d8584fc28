//! A set of positions, as words of 64 bits.
ghost use Rattle.std.specs.Prelude.{◌≡◌, ◌≢◌, ℕ, ◌+◌, ◌-◌, ◌/◌, ◌<◌, ◌^◌};
ghost use Rattle.std.specs.Prelude.{length, replicate, IfOk, true, false};
ghost use Rattle.omega_lift_schedules.specs.PositionSet.{is_set};

use std::alloc::{AllocError, Global};

/// Makes the set of all positions that its words have a bit for: as many words as hold a position `count`, with all
/// bits set. Returns an error if a request for memory is refused.
pub fn all_positions(alloc: Global, count: u32) -> Result<Vec<u64>, AllocError>
    ensures { IfOk result (λ words. words.items ≡ replicate (count / 64 + 1) (2 ^ 64 - 1)) }
{
    vec![in alloc; u64::MAX; count as usize / 64 + 1]
}

/// Whether `position` is in the set.
#[inline(always)]
pub fn contains(words: &[u64], position: usize) -> bool
    requires { position / 64 < length words.now }
    ensures { result ≡ is_set words.now position }
{
    words[position / 64] >> (position % 64) & 1 == 1
}

/// Puts `position` into the set.
#[inline(always)]
pub fn insert(words: &mut [u64], position: usize)
    requires { position / 64 < length words.old }
    ensures inside { is_set words.new position ≡ true }
    ensures others { (other : ℕ) → other ≢ position
        → is_set words.new other ≡ is_set words.old other }
{
    words[position / 64] |= 1 << (position % 64);
}

/// Takes `position` out of the set.
#[inline(always)]
pub fn remove(words: &mut [u64], position: usize)
    requires { position / 64 < length words.old }
    ensures outside { is_set words.new position ≡ false }
    ensures others { (other : ℕ) → other ≢ position
        → is_set words.new other ≡ is_set words.old other }
{
    words[position / 64] &= !(1 << (position % 64));
}
