ghost use Rattle.std.specs.Prelude.{map, IfErr, IfOk};
ghost use Rattle.omega_text.specs.Cut.{IsCut, IsRefusedBy};
ghost use Rattle.omega_text.specs.Lexeme.{lexeme_of};
ghost use Rattle.omega_text.specs.hoa.Format.{hoa_format};

use super::kind::HoaKind;
use crate::refusal::Refusal;
use crate::token::Token;
use crate::tokens::all_tokens;
use std::alloc::Global;

/// Returns all tokens of a Hanoi text, in order. Refused with [TextFault::Lex] or [TextFault::Number] at the least
/// place of a fault, or with [Refusal::Memory].
///
/// The list takes 48 bytes a token at most. A reader that needs a token at a time calls `next_hoa_token`.
pub fn hoa_tokens(alloc: Global, source: &[u8]) -> Result<Vec<Token<'_, HoaKind>>, Refusal>
    ensures cut { IfOk result (λ tokens. IsCut hoa_format source.now (map lexeme_of tokens.items)) }
    ensures refused { IfErr result (IsRefusedBy hoa_format source.now) }
{
    all_tokens::<HoaKind>(alloc, source)
}

// A list of tokens takes at most 48 bytes a token.
const _: () = prove!(std::mem::size_of::<Token<'static, HoaKind>>() <= 48);
