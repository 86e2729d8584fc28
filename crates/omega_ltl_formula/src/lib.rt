//! Formulas of linear temporal logic: what they mean, their laws, and the table in which one is kept.
//!
//! Contracts see a table of nodes. `tree_at` of `specs/Table.antt` says which formula each node is, and `Holds` of
//! `specs/Meaning.antt` at which indices of a word a formula holds.
#![tactic(auto)]

mod builder;
mod formula;
mod laws;
mod limits;
mod measures;
mod names;
mod negation;
mod node;
mod operators;

pub use builder::FormulaBuilder;
pub use formula::Formula;
pub use laws::{
    duals_hold, formulas_are_decided, nodes_are_over_nodes, operators_by_others, operators_unfold,
};
pub use limits::{
    MOST_FORMULA_DEPTH, MOST_FORMULA_NAMES, MOST_FORMULA_NODES, formula_limits_are_stated,
};
pub use negation::negation_of;
pub use node::FormulaNode;
pub use omega_text::{ByteString, Refusal};
pub use operators::{BinaryOperator, UnaryOperator};
