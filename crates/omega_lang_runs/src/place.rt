/// The place of an edge in an automaton.
#[derive(Clone, Copy, Debug, PartialEq, Eq)]
pub struct EdgePlace {
    /// The index of its state among the defined ones, from 0.
    pub state: usize,
    /// Its index among the edges of the state, from 0.
    pub index: usize,
}
