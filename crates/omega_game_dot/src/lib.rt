//! Drawings of parity games, as graphs in the DOT language.
//!
//! docs/formats.md says when each `Refusal` comes.
#![tactic(auto)]

mod extent;
mod game_drawing;
mod legend;
mod marks;
mod near;
mod nodes;
mod role;

pub use extent::Extent;
pub use game_drawing::{draw_game, draw_solution, draw_solution_walk, draw_walk};
