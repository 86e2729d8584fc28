//! Diagnostics of automaton texts: for some refusals, a line that names the state, set or alias at fault.
//!
//! docs/formats.md says when each `Refusal` comes.
//!
//! Why an automaton is not deterministic, and that it lacks the item `controllable-AP:`: lines for people, about its
//! text.
//!
//! docs/formats.md says when the refusal comes that the line explains.
#![tactic(auto)]

mod aliases;
mod automaton_causes;
mod choice_causes;
pub mod choice_laws;
mod choice_lines;
mod choosing;
mod finding;
mod item_causes;
mod labels;
pub mod laws;
mod lines;
mod rows;
mod sets;
mod states;
mod unread;

pub use automaton_causes::automaton_cause;
pub use choice_causes::choice_cause;
pub use item_causes::item_cause;
