//! The automaton of a formula of linear temporal logic: it accepts exactly the words that satisfy the formula.
//!
//! [translate] makes a transition-based generalized Büchi automaton, whose states are sets of demands (Couvreur 1999).
#![tactic(auto)]

mod edges;
mod exploring;
mod forming;
mod graph;
mod header;
mod joining;
mod labels;
mod laws;
mod limits;
mod states;
mod translating;

pub use laws::rejected_words_satisfy;
pub use limits::{MOST_EDGES, MOST_STATES, translation_limits_are_stated};
pub use omega_hoa_automaton::Automaton;
pub use omega_ltl_formula::Formula;
pub use omega_text::Refusal;
pub use translating::translate;
