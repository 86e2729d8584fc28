use crate::node::Node;
use omega_graph::Graph;
use omega_text::Numbers;

/// The input of a search: a graph, the marks of each edge, and the nodes of a formula.
#[derive(Clone, Copy)]
pub(crate) struct WalkSearch<'a> {
    pub(crate) graph: &'a Graph,
    pub(crate) marks: &'a [Numbers],
    pub(crate) nodes: &'a [Node],
}
