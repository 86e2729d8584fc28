//! Emptiness of automata of any acceptance: an accepting lasso, found by a search of the automaton itself, or of a
//! table of its edges.
//!
//! docs/formats.md says when each refusal comes.
#![tactic(auto)]

mod ends;
mod finding;
mod given;
pub mod laws;
mod marks;
mod numbering;
mod search;
mod turning;
mod usable;

pub use finding::{lasso, lasso_in_table};
pub use marks::edge_marks;
pub use omega_hoa_automaton::{Automaton, Refusal};
pub use omega_lang_runs::Verdict;
pub use usable::usable_edges;
