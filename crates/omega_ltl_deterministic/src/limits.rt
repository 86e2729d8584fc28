ghost use Rattle.std.specs.Prelude.{◌≡◌};
ghost use Rattle.omega_ltl_deterministic.specs.Limits.{most_parity_sets, most_cubes};

/// The most sets of an automaton, one for each colour. Its acceptance is a formula as deep as they are many.
pub const MOST_PARITY_SETS: u32 = 128;

/// The most conjunctions of literals that a label is a disjunction of.
pub const MOST_CUBES: usize = 4_096;

/// States the limits in numbers.
pub fn candidate_limits_are_stated()
    ensures sets { MOST_PARITY_SETS ≡ most_parity_sets }
    ensures cubes { MOST_CUBES ≡ most_cubes }
{}
