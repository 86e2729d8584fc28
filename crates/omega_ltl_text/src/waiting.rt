use omega_ltl_formula::BinaryOperator;

/// What waits for an operand while a formula is measured. It takes 4 bytes.
#[derive(Clone, Copy, Debug, PartialEq, Eq)]
pub(crate) enum Waiting {
    /// An open parenthesis.
    Parenthesis,
    /// An operator of one operand.
    Unary,
    /// An operator of two operands, and the depth of the left one.
    Binary(BinaryOperator, u16),
}
