//! The library `omega` for programs in C, C++ and Python: games as arrays, automata, formulas and circuits as texts,
//! and the program as a function. Each export begins with the crate's name, and states again what the call states that
//! it hands on.
#![tactic(auto)]

mod bounding;
mod circuit_form;
mod circuit_realizing;
mod circuit_verifying;
mod circuits;
mod complementing;
mod containing;
mod emptiness;
mod formulas;
mod freeing;
mod game;
mod giving;
mod meeting;
mod outcome;
mod realizing;
mod running;
mod solving;
mod synthesis;
mod text;
mod text_outcome;
mod verifying;
mod version;

pub use game::Game;
pub use outcome::Outcome;
pub use text::Text;
pub use text_outcome::TextOutcome;
