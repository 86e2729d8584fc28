use omega_hoa_label::Label;
use omega_text::Numbers;

/// An edge of an automaton as its product with another sees it. It has one label over the joined propositions, one
/// target, and all marks that count on it.
#[derive(Debug)]
pub struct PlainEdge {
    /// The label, never left out.
    pub label: Label,
    /// The state that it leads to.
    pub target: u32,
    /// The marks of the edge and of the state that it leaves, numbered after the sets of the automaton before.
    pub marks: Numbers,
}

impl Drop for PlainEdge {
    fn drop(self) {
        let PlainEdge {
            label: _,
            target: _,
            marks: _,
        } = self;
    }
}
