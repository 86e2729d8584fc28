//! The operators of linear temporal logic.

/// An operator with one operand.
#[derive(Clone, Copy, Debug, PartialEq, Eq, Hash)]
pub enum UnaryOperator {
    /// `!`
    Not,
    /// `X`: at the next index.
    Next,
    /// `F`: at some index from here on.
    Finally,
    /// `G`: at each index from here on.
    Globally,
}

/// An operator with two operands.
#[derive(Clone, Copy, Debug, PartialEq, Eq, Hash)]
pub enum BinaryOperator {
    /// `&`
    And,
    /// `|`
    Or,
    /// `xor`
    Xor,
    /// `->`
    Implies,
    /// `<->`
    Iff,
    /// `U`: the right operand at some index from here on, and the left one before it.
    Until,
    /// `R`: the right operand at each index up to one, if any, at which the left one holds too.
    Release,
    /// `W`: as `U`, but the right operand need not come if the left one stays.
    WeakUntil,
    /// `M`: as `R`, but the left operand has to come.
    StrongRelease,
}
