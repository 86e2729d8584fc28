use omega_ltl_formula::{BinaryOperator, UnaryOperator};

/// What waits for an operand while a formula is read. It takes 8 bytes.
#[derive(Clone, Copy, Debug, PartialEq, Eq)]
pub(crate) enum Pending {
    /// An open parenthesis.
    Parenthesis,
    /// An operator of one operand.
    Unary(UnaryOperator),
    /// An operator of two operands, and the number of the left one.
    Binary(BinaryOperator, u32),
}
