use crate::raw_edges::RawEdges;
use crate::state_name::StateName;
use omega_hoa_label::RawLabel;
use omega_text::Marks;

/// A state of a body as it is written, with its edges (HOA v1, *Body*).
#[derive(Debug, Drop)]
pub struct RawState {
    /// The label between brackets, or none.
    pub label: Option<RawLabel>,
    /// The number, at most 2,147,483,647.
    pub number: u32,
    /// The bytes of the name between its quotes, as they are, or none. An empty name differs from none.
    pub name: StateName,
    /// The sets between braces in the order written, repeats kept, or none without braces. `{}` differs from none.
    pub marks: Marks,
    /// The edges in the order written.
    pub edges: RawEdges,
}
