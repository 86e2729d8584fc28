use indexmap::IndexSet;
use omega_text::Numbers;

/// The starts of two automata, and the reachable pairs, whose numbers are their positions.
#[derive(Clone, Copy)]
pub(crate) struct Starts<'a> {
    pub(crate) firsts: &'a [Numbers],
    pub(crate) seconds: &'a [Numbers],
    pub(crate) found: &'a IndexSet<(u32, u32)>,
}
