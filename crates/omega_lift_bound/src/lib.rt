//! The bound on the lifts of a run (Jurdziński 2000).
#![tactic(auto)]

mod bounds;

pub use bounds::bound;
pub use omega_game_values::{ForwardGame, Player};
