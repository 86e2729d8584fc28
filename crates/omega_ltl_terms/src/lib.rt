//! The edges of a state, which is a set of demands on a formula of linear temporal logic.
//!
//! The shapes of all demands are a table, and so are the terms of each: what an edge has to fix for the demand to hold.
//! [Tables::edges_of] puts those of a state together.
#![tactic(auto)]

mod closing;
mod covering;
mod edges;
mod limits;
mod meeting;
mod products;
mod pushing;
mod shapes;
mod splitting;
mod strongs;
mod tables;
mod terms;

pub use limits::{MOST_SETS, MOST_TERMS, term_limits_are_stated};
pub use omega_ltl_formula::Formula;
pub use omega_ltl_shapes::{Combination, Cube, Shape, Term};
pub use omega_text::{Numbers, Refusal};
pub use tables::Tables;
