//! PGSolver's texts, of games and of solutions, as tokens.

mod digits;
mod format;
mod kind;
pub mod laws;
mod name;
mod token;
mod tokens;

pub use kind::PgKind;
pub use token::{next_pg_number, next_pg_token};
pub use tokens::pg_tokens;
