//! Texts of symbolic words, read exactly: letters by `;`, and those of the cycle in `cycle{..}`, as Spot writes words.
//!
//! docs/formats.md says when each refusal comes.
#![tactic(auto)]

pub mod laws;
mod letters;
mod reading;
mod token;
mod tokens;
mod translating;

pub use omega_lang_lasso_word::SymbolicWord;
pub use omega_text::Refusal;
pub use reading::read_word;
