//! A deterministic parity automaton of a Boolean combination of leaves, each of which is a deterministic parity
//! automaton or the complement of one. Of this search is proved that it is safe, ends, keeps its limits and returns a
//! well-formed automaton. Who uses an automaton judges its words.
#![tactic(auto)]

mod combination;
mod condition;
mod deterministic_product;
mod leaf;
mod leaf_table;
mod limits;
mod parts;
mod product_search;
mod residues;
mod splitting;
mod truths;
mod wide_letters;
mod zielonka_tree;

pub use combination::Combination;
pub use deterministic_product::product;
pub use leaf::{Leaf, leaf_of};
pub use limits::{MOST_COLOURS, product_limits_are_stated};
pub use omega_ltl_determinization::{DeterministicAutomaton, NondeterministicAutomaton};
pub use omega_text::Refusal;
