//! Emptiness of parity and generalized Büchi automata: the emptiness game, and accepting lassos.
//!
//! docs/formats.md says when each refusal comes.
#![tactic(auto)]

mod deciding;
mod edge_ranges;
mod following;
mod game_laws;
mod games;
mod judged;
mod kinds;
mod laws;
mod marks;
mod nodes;
mod starting;
mod usable;

pub use deciding::{emptiness, emptiness_observed, verdict_of};
pub use game_laws::{unwon_is_empty, won_starts_accept, won_walks_accept};
pub use games::emptiness_game;
pub use laws::accepting_lassos_are_won;
pub use omega_hoa_automaton::{Automaton, Refusal, Seq};
pub use omega_lang_runs::{
    Verdict, accepted_words_have_lassos, accepting_runs_have_lassos, accepting_runs_have_words,
    lassos_are_accepting_runs, lassos_have_accepted_words,
};
