//! Whether one automaton accepts only words that another accepts, and if not, words that show it.
//!
//! Containment is the intersection with a complement: a counterexample is a word of both.
//!
//! Whether an automaton accepts each word that a symbolic word admits is decided so too, by the automaton of the word,
//! and whether it accepts some of them by the intersection with that automaton.
//!
//! docs/formats.md says when each refusal comes.
#![tactic(auto)]

mod accepting;
mod containing;
mod containment;
mod equality;
mod lasso_words;
pub mod laws;
mod making;
mod membership;
mod one_word;
mod open_letters;
mod some_word;
mod states;

pub use accepting::accepts;
pub use containing::decide_containment;
pub use containment::Containment;
pub use equality::{Equality, decide_equality, equality_of};
pub use making::word_automaton;
pub use membership::Membership;
pub use omega_hoa_automaton::{Automaton, Refusal};
pub use omega_lang_intersection::{Example, Intersection};
pub use omega_lang_lasso_word::SymbolicWord;
pub use some_word::accepts_some;
