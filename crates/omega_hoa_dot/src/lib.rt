//! Drawings of omega-automata, as graphs in the DOT language.
//!
//! docs/formats.md says when each `Refusal` comes.
#![tactic(auto)]

mod arrows;
mod automaton_drawing;
mod branches;
mod edge_lines;
mod edges;
mod names;
mod naming;
mod role;
mod shared_arrows;
mod sharing;
mod state_edges;
mod states;
mod valuations;

pub use automaton_drawing::{draw_automaton, draw_lasso};
