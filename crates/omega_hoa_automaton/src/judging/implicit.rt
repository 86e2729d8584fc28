ghost use Rattle.std.specs.Prelude.{◌≡◌, ◌==◌, ◌^◌};

/// Whether `edges` is one for each valuation of `propositions` propositions: a power of two, which is not computed if
/// it does not fit in the machine's numbers.
pub(crate) fn is_power(edges: usize, propositions: u32) -> bool
    ensures { result ≡ (edges == 2 ^ propositions) }
{
    propositions < 64 && edges == 1usize << propositions
}
