use indexmap::IndexSet;
use omega_hoa_automaton::State;

/// A state that stays, and what decides how its edges do.
#[derive(Clone, Copy)]
pub(crate) struct Keeping<'a> {
    /// The numbers of the states that stay.
    pub(crate) kept: &'a IndexSet<u32>,
    /// The number of propositions.
    pub(crate) count: usize,
    pub(crate) state: &'a State,
    /// Whether the labels of the edges stay as they are.
    pub(crate) as_written: bool,
}
