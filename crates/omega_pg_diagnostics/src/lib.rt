//! Diagnostics of texts of games and solutions: for some refusals, a line that names what is at fault.
//!
//! docs/formats.md says when each `Refusal` comes.
#![tactic(auto)]

mod any_syntax;
mod game_causes;
mod grammar;
pub mod laws;
mod lines;
mod places;
mod solution_causes;
mod written_game;
mod written_solution;

pub use game_causes::game_cause;
pub use places::place_line;
pub use solution_causes::solution_cause;
