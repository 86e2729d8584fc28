//! Words and runs of lassos. The word of a lasso is what each of its edges demands of the propositions, by their names;
//! its run is the states that its edges leave. Both are texts in the form in which Spot writes words: a text for each
//! edge, with semicolons between, and braces around the cycle.
//!
//! Words are values too: [`LassoWord`], whose letters are conjunctions of labels, and [`SymbolicWord`], whose letters
//! are formulas over names, with the infinite words that such a word admits.
//!
//! docs/formats.md says when each refusal comes.
#![tactic(auto)]

mod element_text;
mod form;
mod lasso_word;
pub mod laws;
mod letters;
mod names;
mod run;
mod signs;
mod symbolic_word;
mod word;

pub use lasso_word::{LassoWord, lasso_word_text};
pub use names::{stands_bare, write_name};
pub use omega_hoa_automaton::{Automaton, Refusal};
pub use omega_hoa_label::RawLabel;
pub use omega_text::{ByteString, Seq};
pub use run::run_of;
pub use symbolic_word::SymbolicWord;
pub use word::word_of;
