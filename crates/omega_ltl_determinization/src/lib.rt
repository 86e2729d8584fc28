//! Deterministic parity automata of nondeterministic Büchi automata, as flat arrays, by a search of which is proved
//! that it is safe, ends, keeps its limits and returns a well-formed automaton. Who uses an automaton judges its words.
//!
//! [deterministic_automaton] follows Safra trees (Safra 1988), written as nested brackets in the order of their age
//! (Redziejowski 2012).
#![tactic(auto)]

mod bracket_step;
mod colour_lowering;
mod components;
mod deterministic;
mod deterministic_builder;
mod determinizing;
mod essential_steps;
mod fates;
mod letter_classes;
mod letter_sets;
mod letters;
mod limits;
mod nondeterministic;
mod number_list;
mod simulation;
mod state_classes;
mod steps;
mod tidying;

pub use components::{Components, components_of};
pub use deterministic::{DeterministicAutomaton, DeterministicEdge};
pub use deterministic_builder::DeterministicBuilder;
pub use determinizing::deterministic_automaton;
pub use letter_sets::LetterSets;
pub use letters::{all_letters, has_letter, word_count};
pub use limits::{
    MOST_LEAF_NAMES, MOST_NAMES, MOST_SETS, MOST_STATES, MOST_WORDS,
    determinization_limits_are_stated,
};
pub use nondeterministic::NondeterministicAutomaton;
pub use number_list::NumberList;
pub use omega_text::Refusal;
pub use tidying::smaller_automaton;
