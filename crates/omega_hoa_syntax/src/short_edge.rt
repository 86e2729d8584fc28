/// An edge without a label that leads to one state, and is in one set or has no braces.
///
/// It takes 12 bytes. Bodies without labels, which have an edge for each valuation, consist of such edges.
#[derive(Debug, Clone, Copy)]
pub struct ShortEdge {
    /// The state that it leads to.
    pub target: u32,
    /// The set between the braces, or none without braces.
    pub mark: Option<u32>,
}
