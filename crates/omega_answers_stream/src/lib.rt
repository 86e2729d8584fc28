//! What `check`, `show` and `canon` answer to streams of automata.
//!
//! docs/formats.md says when each refusal comes.
//!
//! Reads streams of automata from an input in pieces, and asks each item a question, or writes a text for it.
//!
//! docs/formats.md says when each refusal comes.
#![tactic(auto)]

mod answers;
mod asked;
mod asking;
mod canon;
mod check;
mod counting;
mod item_question;
mod item_text;
mod segments;
mod several;
mod show;
mod show_json;
mod stream_input;
mod stretch;
mod told;

pub use answers::Answers;
pub use asked::Asked;
pub use canon::canon_stream;
pub use check::check_stream;
pub use counting::count_automata;
pub use item_question::ItemQuestion;
pub use item_text::ItemText;
pub use omega_hoa::{Automaton, Item};
pub use omega_io::Input;
pub use omega_text::Refusal;
pub use several::is_several;
pub use show::show_stream;
pub use show_json::show_stream_json;
pub use stream_input::{ask_each, ask_stream};
pub use told::tell_stream;
