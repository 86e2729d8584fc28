//! Labels of omega-automata as they are written, read from tokens.
//!
//! docs/formats.md says when each `Refusal` comes.
//!
//! Aliases of labels of omega-automata, and labels with their aliases replaced.
//!
//! docs/formats.md says when each `Refusal` comes.
#![tactic(auto)]

mod aliases;
mod expansion;
mod extents;
mod laws;
mod reading;
mod unfinished;

pub use aliases::Aliases;
pub use expansion::{expand, expand_faultless, expand_in_place, expanded_size};
pub use extents::Extent;
pub use laws::labels_are_one;
pub use reading::{read_label, read_raw_label};
