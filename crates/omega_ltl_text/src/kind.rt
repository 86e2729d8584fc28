use omega_ltl_formula::{BinaryOperator, UnaryOperator};

/// The kinds of tokens of a formula's text.
#[derive(Clone, Copy, Debug, PartialEq, Eq)]
pub enum FormulaKind {
    /// True or false, as a digit or as a word.
    Constant(bool),
    /// A name as it stands.
    Name,
    /// A name with the quotes around it.
    QuotedName,
    /// An operator of one operand, which follows it.
    Unary(UnaryOperator),
    /// An operator between its two operands.
    Binary(BinaryOperator),
    /// `(`
    OpenParenthesis,
    /// `)`
    CloseParenthesis,
}
