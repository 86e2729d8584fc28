ghost use Rattle.std.specs.Prelude.{◌≡◌};
ghost use Rattle.omega_ltl_terms.specs.Limits.{most_sets, most_terms};

/// The most terms of a demand, and of a state while its edges are made. More are refused with [TaskFault::TooLarge].
pub const MOST_TERMS: usize = 4096;

/// The most strong demands that have a set. A state with another is refused with [TaskFault::TooLarge].
pub const MOST_SETS: usize = 64;

/// States the limits in numbers.
pub fn term_limits_are_stated()
    ensures terms { MOST_TERMS ≡ most_terms }
    ensures sets { MOST_SETS ≡ most_sets }
{}
