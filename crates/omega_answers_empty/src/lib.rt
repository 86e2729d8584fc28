//! What `empty`, `game` and `draw` answer to the text of one automaton, and `empty` to an automaton.
//!
//! docs/formats.md says when each refusal comes.
#![tactic(auto)]

mod draw;
mod empty;
mod game;
mod lines;

pub use draw::{draw_automaton_text, draw_lasso_text};
pub use empty::{decide_automaton, decide_emptiness, search_automaton, search_emptiness};
pub use game::write_emptiness_game;
pub use lines::Lines;
