//! What `complement`, `trim`, `meet`, `join` and `verify --automaton` answer to texts of automata.
//!
//! docs/formats.md says when each refusal comes.
#![tactic(auto)]

mod complement;
mod join;
mod meet;
mod trim;
mod trimmed_meet;
mod verify;

pub use complement::{complement_automaton, complement_text};
pub use join::join_texts;
pub use meet::meet_texts;
pub use omega_answers::Exit;
pub use trim::{trim_automaton, trim_text};
pub use trimmed_meet::meet_trimmed_texts;
pub use verify::verify_lasso;
