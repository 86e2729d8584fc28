ghost use Rattle.std.specs.Prelude.{◌≡◌};
ghost use Rattle.omega_measure.specs.private.layout.Due.{is_short};

use std::cmp::Ordering;

/// Whether a measure does not suffice towards another. `order` compares the two on the entries that count, `top` says
/// whether the first is top, and `strict` whether it must be above the other.
pub(crate) fn is_short(order: Ordering, top: bool, strict: bool) -> bool
    ensures { result ≡ is_short order top strict }
{
    match order {
        Ordering::Less => true,
        Ordering::Equal => strict && !top,
        Ordering::Greater => false,
    }
}
