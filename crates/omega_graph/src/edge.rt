/// An edge of a graph: the state that it leaves and the one that it enters.
#[derive(Clone, Copy, Debug)]
pub struct Edge {
    /// The state that it leaves, from 0.
    pub from: u32,
    /// The state that it enters, from 0.
    pub to: u32,
}
