use crate::edges::Edges;
use omega_hoa_label::Label;
use omega_hoa_syntax::StateName;
use omega_text::Numbers;

/// A state that an automaton defines, with its edges (HOA v1, *Body*).
#[derive(Debug)]
pub struct State {
    /// The label of each of its edges with its aliases replaced, or none.
    pub label: Option<Label>,
    /// The number of the state, below the count of states.
    pub number: u32,
    /// The bytes of the name between its quotes, as they are, or none. An empty name differs from none.
    pub name: StateName,
    /// The sets that each of its edges is in, rising, each once.
    pub marks: Numbers,
    /// The edges in the order written.
    pub edges: Edges,
}

impl Drop for State {
    fn drop(self) {
        let State {
            label: _,
            number: _,
            name: _,
            marks: _,
            edges: _,
        } = self;
    }
}
