use omega_ltl_shapes::Cube;
use omega_text::{Numbers, Seq};

/// An edge of a graph of states.
#[derive(Clone, Copy, Debug, PartialEq, Eq)]
pub(crate) struct GraphEdge {
    /// The letters at which it can be taken.
    pub(crate) cube: Cube,
    /// The number of the state that it leads to.
    pub(crate) target: u32,
    /// The sets in which it is late: a bit for each.
    pub(crate) late: u64,
}

/// A graph whose states are sets of demands, in the order in which they are found. The first one is the start.
#[derive(Debug, Drop)]
pub(crate) struct Graph {
    /// The demands of each state, in ascending order.
    pub(crate) states: Vec<Numbers>,
    /// The edges of each state.
    pub(crate) edges: Vec<Seq<GraphEdge>>,
}
