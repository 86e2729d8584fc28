ghost use Rattle.std.specs.Prelude.{◌≡◌};
ghost use Rattle.omega_hoa_edges.specs.Limits.{most_edges, most_states};

/// The most states of an automaton that is made of others. More are refused with [TaskFault::TooLarge].
pub const MOST_STATES: usize = 1_048_576;

/// The most edges of an automaton that is made of others. More are refused with [TaskFault::TooLarge].
pub const MOST_EDGES: usize = 8_388_608;

/// Shows that the limits are the numbers in the definitions.
pub fn written_limits_are_stated()
    ensures states { MOST_STATES ≡ most_states }
    ensures edges { MOST_EDGES ≡ most_edges }
{}
