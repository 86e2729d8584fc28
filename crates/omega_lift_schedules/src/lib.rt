//! Schedules: which places of a game a solver has yet to look at, and in which order it takes them.
//!
//! Each keeps exactly the pending places and counts the takes, in the words of one trait. `Sweep` takes the places in
//! rising order, round and round, `Worklist` first in, first out, and `Nested` component by component, with the places
//! of great priorities first. Nothing is proved of how few lifts an order makes.
//!
//! Orders of a game's places in which few lifts are made, and what a schedule keeps along one: the positions of the
//! places, sets of positions, and a pace.
//!
//! It is proved that each place has a position of its own, and that sets are sets. Nothing is proved of how good an
//! order or a pace is.
#![tactic(auto)]

mod components;
mod filled_words;
mod nested;
mod nested_order;
mod pace;
mod permutation;
pub mod position_set;
mod schedule;
mod sweep;
mod worklist;

pub use filled_words::{FilledWords, least_from};
pub use nested::Nested;
pub use omega_game_values::{ForwardGame, Game, Refusal};
pub use pace::Pace;
pub use permutation::Permutation;
pub use schedule::Schedule;
pub use sweep::Sweep;
pub use worklist::Worklist;
