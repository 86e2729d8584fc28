use omega_ltl_formula::BinaryOperator;

/// What is still to be written of a formula.
#[derive(Clone, Copy, Debug, PartialEq, Eq)]
pub(crate) enum Unwritten {
    /// A node, by its number.
    Node(usize),
    /// A node as an operand: in parentheses if it has two operands itself.
    Operand(usize),
    /// An operator between its operands.
    Between(BinaryOperator),
    /// A closing parenthesis.
    Closing,
}
