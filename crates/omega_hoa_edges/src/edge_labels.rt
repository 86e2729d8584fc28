//! The bits of the index of a valuation, of which edges that are written without a label have theirs.

ghost use Rattle.std.specs.Prelude.{◌≡◌, ◌==◌, ◌/◌, ◌%◌, ◌^◌};

/// Whether the bit `p` of `index` is set, so that the proposition `p` holds in the valuation of the index.
pub fn has_bit(index: usize, p: usize) -> bool
    ensures { result ≡ ((index / 2 ^ p) % 2 == 1) }
{
    p < 64 && (index >> p) % 2 == 1
}
