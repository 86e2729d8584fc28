use omega_hoa_automaton::Automaton;
use omega_lang_product::PairGraph;
use omega_lang_runs::EdgePlace;

/// Two automata and the graph of their product, with what finds the labels of its edges.
#[derive(Clone, Copy)]
pub(crate) struct Joints<'a> {
    pub(crate) one: &'a Automaton,
    pub(crate) other: &'a Automaton,
    pub(crate) graph: &'a PairGraph,
    /// The places of the edges of `one`.
    pub(crate) places: &'a [EdgePlace],
    /// The places of the edges of `other`.
    pub(crate) other_places: &'a [EdgePlace],
    /// The numbers of the propositions of `one` among those of both.
    pub(crate) numbers: &'a [u32],
    /// The numbers of the propositions of `other` among those of both.
    pub(crate) other_numbers: &'a [u32],
}
