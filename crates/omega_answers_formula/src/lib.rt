//! What `ltl` makes of the text of a formula; what `satisfies` answers to it and to that of an automaton, of a stream
//! of automata, or of a word; and what `equal` answers to it and to that of an automaton.
//!
//! docs/formats.md says when each refusal comes.
#![tactic(auto)]

mod canonical;
mod deterministic;
mod deterministic_negation;
mod equal;
mod formula_answers;
mod formula_question;
mod in_turn;
pub mod laws;
mod ltl;
mod refused_formulas;
mod satisfies;
mod satisfies_stream;
mod satisfies_word;
mod stream_answers;
mod title;

pub use canonical::canonical_formula;
pub use deterministic::deterministic_text;
pub use deterministic_negation::deterministic_negation_text;
pub use equal::equal_each;
pub use formula_answers::FormulaAnswers;
pub use ltl::ltl_text;
pub use omega_answers::Exit;
pub use omega_text::ByteString;
pub use refused_formulas::{About, RefusedFormulas};
pub use satisfies::{satisfies_each, satisfies_texts};
pub use satisfies_stream::satisfies_stream_each;
pub use satisfies_word::satisfies_word_each;
pub use stream_answers::StreamAnswers;
