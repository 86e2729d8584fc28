//! The base of all texts: refusals, tokens with their places, a cursor over tokens, and decimal text.
//!
//! Each format has a module of its own, with its laws in that module's `laws`.
//!
//! docs/formats.md says when each `Refusal` comes.
//!
//! Labels in the DOT language: their names and lines.
//!
//! Numbers of refusals are those of `Refusal`; docs/formats.md says when each comes.
#![tactic(auto)]

mod byte_string;
mod bytes;
mod checking;
mod cursor;
mod decimal;
mod digits;
pub mod hoa;
mod labels;
pub mod laws;
mod limits;
mod marks;
mod numbers;
pub mod pg;
mod reading;
mod refusal;
mod seq;
mod syntax;
mod text_cursor;
mod token;
mod token_kind;
mod token_reader;
mod token_source;
mod tokens;

pub use byte_string::{ByteString, copy_of_strings};
pub use checking::check_tokens;
pub use cursor::Cursor;
pub use decimal::write_number;
pub use hoa::{
    ByteTokenizer, HoaKind, HoaTokenizer, PlacedToken, Settled, hoa_tokens, next_hoa_token,
};
pub use labels::{write_escaped, write_name_line};
pub use limits::{MOST_NUMBER, MOST_TEXT};
pub use marks::Marks;
pub use numbers::Numbers;
pub use pg::{PgKind, next_pg_number, next_pg_token, pg_tokens};
pub use reading::read_text;
pub use refusal::{AutomatonFault, CircuitFault, GameFault, Refusal, TaskFault, TextFault};
pub use seq::Seq;
pub use syntax::TextSyntax;
pub use text_cursor::TextCursor;
pub use token::{Span, Token};
pub use token_kind::TokenKind;
pub use token_reader::TokenReader;
pub use token_source::TokenSource;
