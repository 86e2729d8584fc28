use omega_hoa_automaton::Automaton;

/// One of the two automata of a union, and how its numbers change.
#[derive(Clone, Copy)]
pub(crate) struct Operand<'a> {
    pub(crate) automaton: &'a Automaton,
    /// The joined number of each of its propositions.
    pub(crate) places: &'a [u32],
    /// How many states are numbered before its own.
    pub(crate) states: u32,
    /// How many sets are numbered before its own.
    pub(crate) sets: u32,
    /// The set that each of its edges is in besides, if it has a guard.
    pub(crate) guard: Option<u32>,
}
