use crate::operators::{BinaryOperator, UnaryOperator};

/// A node of a formula: an atom, or an operator and the numbers of its operands, which stand before it.
#[derive(Clone, Copy, Debug, PartialEq, Eq, Hash)]
pub enum FormulaNode {
    /// True or false at each index.
    Constant(bool),
    /// The proposition with this name, by the name's number.
    Name(usize),
    /// An operator and the node that it takes.
    Unary(UnaryOperator, usize),
    /// An operator and the nodes that it takes, the left one first.
    Binary(BinaryOperator, usize, usize),
}
