//! Solves parity games within a budget. A game is solved in an order of its own, the run is reported to an observer,
//! and the answer is by the places of the original game.
//!
//! docs/formats.md says when each refusal comes.

mod answering;
mod building;
mod found;
mod laws;
mod observing;
mod reordered;
mod running;
mod solving;
mod turns;

pub use crate::budget::found::Found;
pub use crate::budget::laws::{
    answers_are_of_solvers, headline_by_place, reorderings_keep_bounds, reorderings_keep_states,
    spent_budgets_are_below_the_bound,
};
pub use crate::budget::observing::{LIFTS_BETWEEN_REPORTS, NoObserver, Progress, Reporter};
pub use crate::budget::reordered::Reordered;
pub use crate::{Game, Player, Refusal, TurnsAnswer, TurnsAnswers};
