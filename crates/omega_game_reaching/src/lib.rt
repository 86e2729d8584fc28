//! What choices reach from places of a game, and the part of a game that a node reaches.
//!
//! docs/formats.md says when each refusal comes.
#![tactic(auto)]

mod laws;
mod parts;
mod reaching;

pub use laws::{parts_are_games, parts_keep_nodes};
pub use parts::{forward_part, part};
pub use reaching::{edges_left, reached_from};
