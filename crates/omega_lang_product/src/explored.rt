ghost use Rattle.std.specs.Prelude.{◌≡◌};
ghost use Rattle.omega_lang_product.specs.private.Explored.{past_before};

use crate::joint_edges::JointEdges;
use indexmap::IndexSet;

/// What a product is made of: its pairs of states, which are the reachable ones, and the edges between them.
#[derive(Drop)]
pub(crate) struct Explored {
    /// The pairs, whose numbers are their positions.
    pub(crate) pairs: IndexSet<(u32, u32)>,
    /// The edges, in the order of the pairs that they leave.
    pub(crate) edges: JointEdges,
    /// For each pair, how many edges leave it and the pairs before it.
    pub(crate) past: Vec<usize>,
}

impl Explored {
    /// Returns how many edges leave the pairs before the one with the number `at`.
    pub(crate) fn past_before(&self, at: usize) -> usize
        ensures { result ≡ past_before self.now.past.items at }
    {
        if at == 0 {
            0
        } else {
            self.past.get(at - 1).copied().unwrap_or(0)
        }
    }
}
