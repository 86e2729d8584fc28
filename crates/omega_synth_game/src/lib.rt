//! The game in rounds of a parity automaton whose propositions are parted into the system's and the environment's:
//! which rounds it has, and what winning them means for it.
//!
//! docs/formats.md says when each refusal comes.
#![tactic(auto)]

mod answering;
mod edge_words;
mod exclusive;
mod firsts;
mod in_lane;
mod inputs;
mod lanes;
mod laws;
mod leaving;
mod letters;
mod making;
mod questions;
mod round_edges;
mod stack;
mod states;

pub use exclusive::are_seen_apart;
pub use laws::{
    answerings_are_controllers, askings_are_counter_strategies, game_sizes_are_one,
    large_games_are_not_small, large_games_mention_few, met_answers_are_met, no_start_is_refused,
    size_faults_are_one,
};
pub use making::{LetteredRounds, rounds_of};
pub use questions::{Questions, questions_of};
