/// A part of a formula that is to hold, or, if `negated`, is not to.
#[derive(Clone, Copy, Debug, PartialEq, Eq)]
pub(crate) struct Conjunct {
    /// The number of its node in the formula.
    pub(crate) node: usize,
    pub(crate) negated: bool,
}
