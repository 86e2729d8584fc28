//! Parity games as arrays: which shapes encode a game, its solutions as arrays, solved and judged in place.
//!
//! Numbers of refusals are those of `Refusal`; docs/formats.md says when each comes.
#![tactic(auto)]

mod answer;
mod arrays;
mod bounding;
mod building;
mod copying;
mod fault;
mod judging;
mod lifting;
mod shape;
mod solving;

pub use answer::NO_CHOICE;
pub use arrays::Arrays;
pub use bounding::{Bound, Bounds, bound_arrays};
pub use copying::copy_into;
pub use fault::{ArrayFault, WrongEntry};
pub use judging::{Verdict, verify_arrays};
pub use omega_game::{Game, Player, Refusal};
pub use solving::{Lifts, solve_arrays};
