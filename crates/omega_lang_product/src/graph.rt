use crate::joint_edges::JointEdges;
use omega_hoa_acceptance::Acc;
use omega_text::ByteString;

/// The graph of the product of two automata: what the product is but for its labels and its names of states.
#[derive(Debug)]
pub struct PairGraph {
    /// The names of the propositions of both.
    pub propositions: Vec<ByteString>,
    /// The number of the pair of each two starts.
    pub starts: Vec<u32>,
    /// The edges between the pairs.
    pub edges: JointEdges,
    /// The acceptance formula of the product.
    pub acceptance: Acc,
}

impl Drop for PairGraph {
    // By hand, so that a graph is dropped by a call at each exit of a function that owns it, and not field by field.
    fn drop(self) {
        let PairGraph {
            propositions: _,
            starts: _,
            edges: _,
            acceptance: _,
        } = self;
    }
}
