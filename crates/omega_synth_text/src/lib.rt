//! A controller or a counter-strategy as an automaton of its own, in the canonical form: the states that are reached,
//! the kept edges, and the header item `controllable-AP:` of extended HOA.
#![tactic(auto)]

mod body;
mod flags;
mod graph;
mod header;
mod labels;
mod letters;
mod numbering;
mod parts;
mod reaching;
mod winner;

pub use omega_hoa_automaton::{Automaton, Refusal};
pub use omega_text::Numbers;
pub use winner::{controller_text, counter_strategy_text};
