//! The union of two automata, which accepts the words that one of them accepts: the states of both beside each other.
//!
//! First it is decided which sets both use (`sets`). Then the header and the states are written as a text would have
//! them (`header`, `states`), and are judged and read as every written automaton is (`uniting`).
//!
//! docs/formats.md says when each refusal comes.
#![tactic(auto)]

mod acceptance;
mod edges;
mod header;
mod labels;
mod numbers;
mod operand;
mod sets;
mod sharing;
mod states;
mod uniting;

pub use omega_hoa_automaton::{Automaton, Refusal};
pub use sharing::Sharing;
pub use uniting::union;
