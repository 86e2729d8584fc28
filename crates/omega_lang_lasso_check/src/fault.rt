use thiserror::Error;

/// Why a lasso is no accepting lasso of an automaton: the first fault that applies, in this order. A fault of an edge
/// names the first such edge along the lasso, by its number.
#[derive(Clone, Copy, Debug, PartialEq, Eq, Error)]
pub enum LassoFault {
    /// The cycle has no edge.
    #[error("the cycle has no edge")]
    NoCycle,
    /// The automaton has no edge of this number.
    #[error("edge {0} is not there")]
    NotThere(u32),
    /// The first edge leaves a state that is no start.
    #[error("edge {0} leaves no start")]
    NoStart(u32),
    /// The edge does not leave the state that the edge before it enters. The edge before the first of the cycle is the
    /// last of the stem.
    #[error("edge {0} does not follow")]
    Apart(u32),
    /// The last edge of the cycle does not enter the state that the first one leaves.
    #[error("the cycle does not close")]
    NotClosed,
    /// No set of propositions makes the label of the edge, or of the state that it leaves, true.
    #[error("edge {0} can not be taken")]
    NeverTrue(u32),
    /// The acceptance formula does not hold of the marks of the cycle's edges.
    #[error("the cycle does not accept")]
    NotAccepted,
}
