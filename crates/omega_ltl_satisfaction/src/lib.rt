//! Whether each word that an automaton accepts satisfies a formula of linear temporal logic, and if not, words that
//! show it (Vardi and Wolper 1986).
//!
//! The negation of the formula is taken apart into its conjuncts (`conjuncts`). Each becomes an automaton
//! (`conjunct_automaton`), and these are met with the given one, one after the other (`meeting`), so that a product
//! reaches only what the automata before it leave. A word that all accept does not satisfy the formula. A lasso of the
//! last product takes one of the given automaton (`first_example`).
//!
//! Whether an automaton accepts a word that satisfies a formula is decided so too, by the conjuncts of the formula, and
//! whether each word that a symbolic word admits satisfies a formula, by the automaton of the word.
//!
//! docs/formats.md says when each refusal comes.
#![tactic(auto)]

mod conjunct;
mod conjunct_automaton;
mod conjuncts;
mod first_example;
mod formula_words;
mod laws;
mod meeting;
mod names;
mod parts;
mod satisfaction;
mod satisfying;
mod wanted;
mod word_satisfaction;
mod word_satisfying;
mod words;

pub use formula_words::satisfying_words;
pub use laws::{answers_exclude_each_other, yes_means_every_word};
pub use names::unmentioned_names;
pub use omega_hoa_automaton::{Automaton, Refusal};
pub use omega_lang_intersection::{Example, Intersection};
pub use omega_lang_lasso_word::{LassoWord, SymbolicWord};
pub use omega_ltl_formula::Formula;
pub use satisfaction::Satisfaction;
pub use satisfying::satisfies;
pub use word_satisfaction::WordSatisfaction;
pub use word_satisfying::word_satisfies;
