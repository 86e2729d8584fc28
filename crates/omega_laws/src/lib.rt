//! Laws of the texts of products and complements: that their canonical texts are read back, and what `meet`,
//! `complement` and `empty` say of two texts, one after the other. And what `meet --trim` says. No code that runs.
//!
//! Laws of the automata that texts describe, whatever faults a text may have: of each text of an automaton there is
//! one, and all that one text describes accept the same words. No code that runs.
//!
//! Laws of automata without useless states: the words that they accept. No code that runs.
//!
//! Laws of unions: the words that they accept. No code that runs.
//!
//! A law of `accepts`: it accepts the word that `empty --word` writes. No code that runs.
//!
//! Laws of `satisfies` and of `equal -f`: what their answers say of the words that a text accepts or admits. No code
//! that runs.
//!
//! Laws of `realize` and `verify`: what their answers say of the strategies of the system and of the environment, and
//! of the automata that texts describe; and of circuits, that are judged or written. No code that runs.
//!
//! Laws of `realize`: that the text of a controller is read back, that `verify --specification` judges it right, and
//! that answers by lifting are given within the budget; and that no refusal of `verify --specification` is about a
//! circuit that `realize --aiger` writes. No code that runs.
#![tactic(auto)]

mod complement_texts;
mod containment;
mod controller_texts;
mod describing;
mod formula_texts;
mod inclusion_texts;
mod judged_circuits;
mod judged_texts;
mod lifted_answers;
mod product_texts;
mod realized_formulas;
mod specification_texts;
mod trimming;
mod trims;
mod unions;
mod written_circuits;
mod written_controllers;
mod written_texts;
mod written_words;

pub use complement_texts::{complement_texts_accept_the_rest, complements_are_read_back};
pub use containment::{empty_means_contained, lassos_mean_not_contained, met_texts_accept_both};
pub use controller_texts::controllers_are_read_back;
pub use describing::{automata_are_described, described_automata_are_alike};
pub use formula_texts::{
    admitted_words_satisfy, equal_texts_have_the_words, satisfying_texts_satisfy,
};
pub use inclusion_texts::{
    accepted_texts_are_accepted, contained_texts_are_contained, equal_texts_are_equal,
    some_texts_are_accepted,
};
pub use judged_circuits::{
    circuits_are_judged, formula_circuits_are_exact, formula_circuits_are_judged,
    winning_circuits_are_exact,
};
pub use judged_texts::{formula_controllers_are_judged, formula_counter_strategies_are_judged};
pub use lifted_answers::lifted_answers_end;
pub use omega_lang_word_laws::{
    complements_are_apart, complements_are_one, complements_are_writable, complements_cover,
    complements_part_by_name, products_are_one, products_meet, products_meet_by_name,
    words_are_named, words_seen_alike_are_one,
};
pub use product_texts::products_are_read_back;
pub use realized_formulas::{formula_winners_are_exact, realize_formula_answers_are_exact};
pub use specification_texts::{
    controller_texts_are_judged, counter_texts_are_judged, realized_texts_are_exact,
    winners_of_texts_are_exact,
};
pub use trimming::trimmed_meetings_accept_both;
pub use trims::{trimmed_texts_accept_the_same, trims_accept_the_same, trims_are_one};
pub use unions::{
    joined_texts_accept_either, unions_accept_either, unions_accept_either_by_name, unions_are_one,
};
pub use written_circuits::written_circuits_are_not_at_fault;
pub use written_controllers::{
    written_controllers_are_judged_right, written_controllers_are_not_at_fault,
};
pub use written_texts::written_automata_are_read_back;
pub use written_words::written_words_are_accepted;
