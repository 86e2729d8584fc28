/// A state that a search met.
#[derive(Clone, Copy)]
pub(crate) struct MetState {
    pub state: u32,
    /// One more than the index of the edge along which it was met, or 0 if the search began with it.
    pub edge: u32,
    /// The index of the state from which it was met, in the order in which they were.
    pub origin: u32,
}
