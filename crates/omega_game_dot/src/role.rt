/// The part of a lasso that a node or an edge is on.
#[derive(Clone, Copy)]
pub(crate) enum Role {
    /// It is on neither part.
    Plain,
    /// It is on the stem and not on the cycle.
    Stem,
    /// It is on the cycle.
    Cycle,
}
