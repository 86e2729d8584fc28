//! The reachable pairs and their numbers, which are their positions.

ghost use Rattle.std.specs.Prelude.{◌≡◌, ◌<◌, ◌≤◌, get_or, length};
ghost use Rattle.omega_hoa_edges.specs.Limits.{most_states};
ghost use Rattle.omega_lang_product.specs.Pairs.{pair_number};

use indexmap::IndexSet;

/// Returns the pair with the number `number`.
#[tactic(auto, using(crate::proofs::Formulas::same_default))]
pub(crate) fn pair_at(found: &IndexSet<(u32, u32)>, number: usize) -> (u32, u32)
    requires { number < length found.now.keys }
    ensures pair { result ≡ get_or found.now.keys number result }
    ensures number { number ≡ pair_number found.now.keys result }
{
    found.as_slice()[number]
}

/// Returns the number of `pair`, or the number of pairs if it is not among them.
pub(crate) fn number_of(found: &IndexSet<(u32, u32)>, pair: (u32, u32)) -> u32
    requires { length found.now.keys ≤ most_states }
    ensures { result ≡ pair_number found.now.keys pair }
{
    match found.get_index_of(&pair) {
        Some(number) => number as u32,
        None => found.len() as u32,
    }
}
