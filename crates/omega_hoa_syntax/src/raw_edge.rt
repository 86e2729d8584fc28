use omega_hoa_label::RawLabel;
use omega_text::{Marks, Numbers};

/// An edge as it is written (HOA v1, *Body*).
#[derive(Debug, Drop)]
pub struct RawEdge {
    /// The label between brackets, or none.
    pub label: Option<RawLabel>,
    /// The states that are joined by `&`, at least one.
    pub targets: Numbers,
    /// The sets between braces in the order written, repeats kept, or none without braces. `{}` differs from none.
    pub marks: Marks,
}
