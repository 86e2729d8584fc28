//! The lifting solver (Jurdziński 2000), over any table and any schedule: runs within a budget, answers, and the laws
//! of these.
//!
//! docs/formats.md says when each refusal comes.
#![tactic(auto)]

mod answer;
pub mod budget;
mod laws;
mod limits;
mod outcome;
mod repeating;
mod solver;
mod successor;
mod turns;
mod wake;

pub use answer::AnswerRef;
pub use laws::{answers_part_the_game, headline, raises_are_bounded, runs_lead_to_least_tables};
pub use limits::{MOST_LIFTS, lift_limits_are_stated};
pub use omega_lift_schedules::{Nested, Schedule, Sweep, Worklist};
pub use omega_measure::{Game, MeasureTable, PackedTable, PlainTable, Player, Refusal, TaskFault};
pub use outcome::Outcome;
pub use solver::Solver;
pub use turns::{TurnsAnswer, TurnsAnswers, solve_in_turns};
