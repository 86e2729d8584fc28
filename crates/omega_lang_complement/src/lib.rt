//! The complement of a deterministic automaton, which accepts exactly the words that the automaton does not.
//!
//! docs/formats.md says when each refusal comes.
#![tactic(auto)]

mod acceptance;
mod complementing;
mod forming;
mod limits;
mod rest;
mod states;
mod turning;

pub use complementing::complement;
pub use omega_hoa_automaton::{Automaton, Refusal};
pub use omega_hoa_edges::{MOST_EDGES, MOST_STATES, written_limits_are_stated};
