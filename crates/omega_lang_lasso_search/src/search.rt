use omega_graph::Graph;
use omega_hoa_acceptance::Acc;
use omega_text::Numbers;

/// A search for an accepting lasso: the usable edges of an automaton, in a graph of all its edges in their order.
#[derive(Clone, Copy)]
pub(crate) struct LassoSearch<'a> {
    /// The marks of each edge.
    pub(crate) marks: &'a [Numbers],
    pub(crate) graph: &'a Graph,
    /// The starts, by their numbers in the graph.
    pub(crate) sources: &'a [u32],
    /// The numbers of the usable edges.
    pub(crate) edges: &'a [u32],
    /// The acceptance formula.
    pub(crate) formula: &'a Acc,
}
