//! PGSolver's texts of games, and texts of solutions, as other tools write them: with comments, `start`, dead ends, and
//! names of any bytes.
//!
//! docs/formats.md says what each leniency means and when each `Refusal` comes.
#![tactic(auto)]

mod bytes;
mod context;
mod format;
mod kind;
pub mod laws;
mod line_place;
mod plain;
mod reader;
mod reading;
mod solution;
mod stage;
mod strict_text;
mod syntax;
mod token;

pub use omega_game_values::{ForwardGame, Game, Refusal, Solution};
pub use plain::plain_text;
pub use reading::{read_lenient_forward_game, read_lenient_game};
pub use solution::{bare_text, read_lenient_solution};
pub use strict_text::strict_game_text;
