//! What `empty`, `trim`, `complement` and `contained` answer to streams of automata: the answer to each automaton, in
//! turn.
//!
//! docs/formats.md says when each refusal comes.
#![tactic(auto)]

mod aborted;
mod complement;
mod contained;
mod lifting;
mod search;
mod trim;

pub use complement::complement_stream;
pub use contained::contained_stream;
pub use lifting::empty_stream_by_lifting;
pub use omega_answers_stream::Answers;
pub use search::empty_stream_by_search;
pub use trim::trim_stream;
