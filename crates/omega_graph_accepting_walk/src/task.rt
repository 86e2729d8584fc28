use omega_text::Seq;

/// A set of edges in which a closed walk is sought that satisfies the formulas at all places of `asked`.
#[derive(Drop)]
pub(crate) struct WalkTask {
    pub(crate) edges: Seq<u32>,
    pub(crate) asked: Seq<u32>,
}
