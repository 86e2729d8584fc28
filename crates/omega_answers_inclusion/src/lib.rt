//! What `contained` and `equal` answer of two texts, and `accepts` of the text of a word and of an automaton.
//!
//! docs/formats.md says when each refusal comes.
#![tactic(auto)]

mod accepts;
mod accepts_some;
mod contained;
mod equal;
mod example;
mod word_and_automaton;
mod word_line;

pub use accepts::accepts_text;
pub use accepts_some::accepts_some_text;
pub use contained::{contained_automata, contained_texts};
pub use equal::equal_texts;
pub use example::counterexample_lines;
pub use omega_answers::Exit;
