use omega_graph::Edge;
use omega_hoa_acceptance::Acc;
use omega_text::Numbers;

/// An automaton as a table of its edges.
#[derive(Clone, Copy)]
pub(crate) struct Given<'a> {
    /// The states in which it may begin.
    pub(crate) starts: &'a [u32],
    /// The ends of each edge.
    pub(crate) ends: &'a [Edge],
    /// The marks of each edge.
    pub(crate) marks: &'a [Numbers],
    /// The numbers of the usable edges.
    pub(crate) edges: &'a [u32],
    /// The acceptance formula.
    pub(crate) formula: &'a Acc,
}
