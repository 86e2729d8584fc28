/// An and-gate: the literal that it defines, and the two literals of which it is the conjunction.
#[derive(Clone, Copy, Debug, PartialEq, Eq)]
pub struct Gate {
    /// The literal that the gate defines, which is even.
    pub literal: u32,
    /// One operand.
    pub left: u32,
    /// The other operand.
    pub right: u32,
}
