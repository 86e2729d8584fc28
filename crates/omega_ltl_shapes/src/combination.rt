/// A combination of literals and demands, all of one index.
#[derive(Clone, Copy, Debug, PartialEq, Eq)]
pub enum Combination {
    /// True or false.
    Constant(bool),
    /// The proposition with this number, negated or not.
    Literal(u32, bool),
    /// One demand.
    Same(u32),
    /// Both demands.
    Both(u32, u32),
    /// One of two demands, or both.
    Either(u32, u32),
    /// The first two demands, or the last two.
    Cases(u32, u32, u32, u32),
}
