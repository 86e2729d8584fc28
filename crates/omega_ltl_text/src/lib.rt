//! Texts of formulas of linear temporal logic, in Spot's syntax: read exactly, and written in one canonical form.
//!
//! [read_formula] reads `GFp -> [](q => p U r)`, and [write_formula] writes that formula as `G F p -> G(q -> (p U r))`.
//! A text says at most one formula, and is read or refused. The canonical text of a formula is read back as that
//! formula. These are laws, in [laws].
#![tactic(auto)]

mod bytes;
mod depths;
mod format;
mod front;
mod kind;
pub mod laws;
mod levels;
mod measurer;
mod names;
mod pending;
mod reader;
mod reading;
mod reducing;
mod spelling;
mod syntax;
mod token;
mod unwritten;
mod waiting;
mod writing;

pub use kind::FormulaKind;
pub use omega_ltl_formula::Formula;
pub use omega_text::Refusal;
pub use reading::read_formula;
pub use writing::write_formula;
