ghost use Rattle.std.specs.Prelude.{◌≡◌};
ghost use Rattle.omega_ltl_translation.specs.Limits.{most_edges, most_states};

/// The most states of the automaton of a formula. More are refused with [TaskFault::TooLarge].
pub const MOST_STATES: usize = 1_048_576;

/// The most edges of the automaton of a formula. More are refused with [TaskFault::TooLarge].
pub const MOST_EDGES: usize = 8_388_608;

/// States the limits in numbers.
pub fn translation_limits_are_stated()
    ensures states { MOST_STATES ≡ most_states }
    ensures edges { MOST_EDGES ≡ most_edges }
{}
