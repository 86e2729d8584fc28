//! A referee for lassos of automata: whether a lasso, given by numbers of edges, accepts, or else why not.
//!
//! docs/formats.md says when each refusal comes.
#![tactic(auto)]

mod acceptance;
mod edge_table;
mod fault;
mod fault_text;
mod judging;
mod labels;
mod laws;
mod links;
mod runs;

pub use fault::LassoFault;
pub use fault_text::write_lasso_fault;
pub use judging::judge_lasso;
pub use laws::lasso_faults_are_one;
pub use omega_hoa_automaton::{Automaton, Refusal};
