//! Parity games as values: their nodes, how they are built, strategies and solutions.
//!
//! `Game::build` and `GameBuilder` return the game of the specifications, or the least refusal that applies. A
//! `ForwardGame` is a game without predecessors. Columns hold the nodes of both (`forward_game`, `lists`, `names`), and
//! specifications become places by their identifiers (`sorting`, `identifiers`, `resolving`).
//!
//! docs/formats.md says when each refusal comes.
#![tactic(auto)]

mod builder;
mod forward_game;
mod game;
mod identifiers;
mod laws;
mod limits;
mod lists;
mod names;
mod node_spec;
mod player;
mod predecessors;
mod priority_counts;
mod resolving;
mod solution;
mod sorting;
mod strategy;

pub use builder::GameBuilder;
pub use forward_game::ForwardGame;
pub use game::Game;
pub use laws::{
    choices_are_entries, games_exist, games_have_no_fault, games_keep_limits,
    specifications_have_one_game,
};
pub use limits::{MOST_NODES, MOST_SUCCESSORS, game_limits_are_stated};
pub use node_spec::NodeSpec;
pub use omega_text::{GameFault, MOST_NUMBER, Refusal, Seq, TaskFault};
pub use player::Player;
pub use priority_counts::PriorityCount;
pub use solution::Solution;
pub use strategy::Strategy;
