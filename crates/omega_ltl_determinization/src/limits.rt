ghost use Rattle.std.specs.Prelude.{◌≡◌};
ghost use Rattle.omega_ltl_determinization.specs.Limits.{most_leaf_names, most_names, most_sets, most_states};
ghost use Rattle.omega_ltl_determinization.specs.Limits.{most_words};

/// The most names of the letters of an automaton.
pub const MOST_NAMES: u32 = 16;

/// The most names of the letters of an automaton that is made deterministic.
pub const MOST_LEAF_NAMES: u32 = 12;

/// The most sets of edges that a run is to take again and again: one bit of a word for each.
pub const MOST_SETS: u32 = 64;

/// The most states of a deterministic automaton.
pub const MOST_STATES: usize = 65_536;

/// The most words of 64 bits that the letters of all edges of a deterministic automaton take.
pub const MOST_WORDS: usize = 67_108_864;

/// The most steps of an automaton that is made deterministic: for each state and each class of letters, the edges that
/// can be taken.
pub(crate) const MOST_STEPS: usize = 8_388_608;

/// The most states of an automaton that is reduced by simulation.
pub(crate) const MOST_SIMULATED: u32 = 400;

/// The most pairs of steps that are compared for a simulation.
pub(crate) const MOST_SIMULATION_STEPS: u64 = 100_000_000;

/// States the limits in numbers.
pub fn determinization_limits_are_stated()
    ensures names { MOST_NAMES ≡ most_names }
    ensures leaf_names { MOST_LEAF_NAMES ≡ most_leaf_names }
    ensures sets { MOST_SETS ≡ most_sets }
    ensures states { MOST_STATES ≡ most_states }
    ensures words { MOST_WORDS ≡ most_words }
{}
