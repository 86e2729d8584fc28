//! The canonical texts of omega-automata.
//!
//! docs/formats.md says when each `Refusal` comes.
#![tactic(auto)]

mod body;
mod canonical_text;
mod header;
mod parts;

pub use canonical_text::{canonical, canonical_named, write_canonical};
