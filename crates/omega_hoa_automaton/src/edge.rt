use omega_hoa_label::Label;
use omega_text::Numbers;

/// An edge of an automaton (HOA v1, *Body*).
#[derive(Debug)]
pub struct Edge {
    /// The label with its aliases replaced, or none.
    pub label: Option<Label>,
    /// The states that it leads to, at least one; two or more are a universal branch.
    pub targets: Numbers,
    /// The sets that it is in, rising, each once.
    pub marks: Numbers,
}

impl Drop for Edge {
    fn drop(self) {
        let Edge {
            label: _,
            targets: _,
            marks: _,
        } = self;
    }
}
