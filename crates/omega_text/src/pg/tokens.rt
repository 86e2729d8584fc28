ghost use Rattle.std.specs.Prelude.{map, IfErr, IfOk};
ghost use Rattle.omega_text.specs.Cut.{IsCut, IsRefusedBy};
ghost use Rattle.omega_text.specs.Lexeme.{lexeme_of};
ghost use Rattle.omega_text.specs.pg.Format.{pg_format};

use super::kind::PgKind;
use crate::refusal::Refusal;
use crate::token::Token;
use crate::tokens::all_tokens;
use std::alloc::Global;

/// Returns all tokens of a PGSolver text, in order. Refused with [TextFault::Lex] or [TextFault::Number] at the least
/// place of a fault, or with [Refusal::Memory].
///
/// The list takes 48 bytes a token at most. A reader that needs a token at a time calls `next_pg_token`.
pub fn pg_tokens(alloc: Global, source: &[u8]) -> Result<Vec<Token<'_, PgKind>>, Refusal>
    ensures cut { IfOk result (λ tokens. IsCut pg_format source.now (map lexeme_of tokens.items)) }
    ensures refused { IfErr result (IsRefusedBy pg_format source.now) }
{
    all_tokens::<PgKind>(alloc, source)
}

// A list of tokens takes at most 48 bytes a token.
const _: () = prove!(std::mem::size_of::<Token<'static, PgKind>>() <= 48);
