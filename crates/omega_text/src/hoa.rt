//! Texts in the Hanoi format, of automata and of streams of them, as tokens.

mod byte_tokenizer;
mod format;
mod kept_mode;
mod kind;
pub mod laws;
mod lead;
mod mark;
mod mode;
mod passing;
mod pending;
mod placed;
mod plain;
mod quoted;
mod token;
mod tokenizer;
mod tokens;
mod unit;

pub use byte_tokenizer::ByteTokenizer;
pub use kind::HoaKind;
pub use placed::{PlacedToken, Settled};
pub use token::next_hoa_token;
pub use tokenizer::HoaTokenizer;
pub use tokens::hoa_tokens;
