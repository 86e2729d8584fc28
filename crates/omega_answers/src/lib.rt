//! What the answers to questions about automata share: two texts are read, and one of them is refused, or both
//! together.
//!
//! A question about two automata reads them by [read_two], and asks.
#![tactic(auto)]

mod choice;
mod two_automata;

pub use choice::refused_for;
pub use omega_io::{Answer, Exit, Refused, Which};
pub use two_automata::{TwoAutomata, read_two};
