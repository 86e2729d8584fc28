//! Words as sets of the numbers of their bits.

ghost use Rattle.std.specs.Prelude.{◌≡◌, ◌↔◌, ◌<◌, IsTrue};
ghost use Rattle.omega_ltl_shapes.specs.Covers.{is_set};
ghost use Rattle.omega_ltl_shapes.specs.Terms.{HasBits, HasBitsOfBoth, HasOneMore, HaveCommonBit};

/// Whether a bit of `word` is set. Beyond its width none is.
pub fn has_bit(word: u64, place: u32) -> bool
    ensures { result ≡ is_set word place }
{
    place < 64 && (word >> place) & 1 == 1
}

/// Whether `more` has all bits of `word`.
pub fn has_bits_of(more: u64, word: u64) -> bool
    ensures { IsTrue result ↔ HasBits word more }
{
    more | word == more
}

/// Whether two words have a bit in common.
pub fn have_common_bit(one: u64, other: u64) -> bool
    ensures { IsTrue result ↔ HaveCommonBit one other }
{
    one & other != 0
}

/// Returns a word with the bits of `word` and one more.
pub fn with_bit(word: u64, place: u32) -> u64
    requires { place < 64 }
    ensures { HasOneMore word place result }
{
    word | 1u64 << place
}

/// Returns a word with the bits of both.
pub fn bits_of_both(one: u64, other: u64) -> u64
    ensures { HasBitsOfBoth one other result }
{
    one | other
}
