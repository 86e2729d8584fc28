//! What the automata of the Hanoi format mean: infinite runs, words, accepting lassos and verdicts on emptiness; and
//! their edges, found by number.
//!
//! docs/formats.md says when each refusal comes.
#![tactic(auto)]

mod finding;
mod judged_state;
mod laws;
mod place;
mod placing;
mod verdict;

pub use finding::{FoundEdge, edge_of};
pub use judged_state::JudgedState;
pub use laws::{
    accepted_words_have_lassos, accepting_runs_have_lassos, accepting_runs_have_words,
    edges_are_taken_where_true, empty_accepts_no_word, lassos_are_accepting_runs,
    lassos_have_accepted_words, parity_is_limit, verdicts_agree,
};
pub use omega_hoa_automaton::{Automaton, Refusal};
pub use place::EdgePlace;
pub use placing::edge_places;
pub use verdict::Verdict;
