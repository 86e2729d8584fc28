ghost use Rattle.std.specs.Prelude.{◌≡◌};
ghost use Rattle.omega_hoa_automaton.specs.Limits.{most_propositions, most_total_size};

/// The most propositions of an automaton. More are refused with [AutomatonFault::Proposition].
pub const MOST_PROPOSITIONS: usize = 1024;

/// The most tree nodes of all labels of an automaton together, their aliases replaced. More are refused with
/// [AutomatonFault::Expansion].
pub const MOST_TOTAL_SIZE: u64 = 16_777_216;

/// States that the limits are the numbers in the definitions.
pub fn automaton_limits_are_stated()
    ensures propositions { MOST_PROPOSITIONS ≡ most_propositions }
    ensures total_size { MOST_TOTAL_SIZE ≡ most_total_size }
{}
