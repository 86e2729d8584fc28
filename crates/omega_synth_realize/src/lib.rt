//! Whether a parity automaton is realizable whose propositions are parted into the system's and the environment's: a
//! controller or a counter-strategy, by the rounds of the automaton.
//!
//! docs/formats.md says when each refusal comes.
//!
//! Who wins a game in rounds, with what wins it: edges that answer each question, or a question for each state.
//!
//! docs/formats.md says when each refusal comes.
#![tactic(auto)]

mod deciding;
mod games;
mod laws;
mod lifting;
mod met;
mod outcome;
mod parting;
mod posing;
mod realizability;
mod realizing;
mod solving;
mod winning;

pub use deciding::{realize, realize_by_lifting};
pub use games::realizability_game;
pub use laws::{automata_are_decided, games_decide, large_games_are_not_decided};
pub use lifting::lift_rounds;
pub use omega_hoa_automaton::{Automaton, Refusal};
pub use omega_synth_rounds::{Game, QuestionRange, RoundEdge, Rounds};
pub use omega_text::{Numbers, Seq};
pub use outcome::Outcome;
pub use realizability::Realizability;
pub use solving::solve_rounds;
