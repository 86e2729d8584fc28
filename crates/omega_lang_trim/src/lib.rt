//! Automata without useless states: those that no start reaches, and those in which no accepting lasso starts.
//!
//! docs/formats.md says when each refusal comes.
#![tactic(auto)]

mod assembling;
mod edges;
mod forming;
mod goals;
mod graph;
mod header;
mod keeping;
mod labels;
mod live;
mod names;
mod numbers;
mod occurring;
mod places;
mod states;
mod trimming;
mod useful;

pub use assembling::{meaning, raw_automaton_of};
pub use names::{copied_acc_name, copied_state_name};
pub use omega_hoa_automaton::{Automaton, Refusal};
pub use trimming::trim;
