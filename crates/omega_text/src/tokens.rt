ghost use Rattle.std.specs.Prelude.{map, IfErr, IfOk};
ghost use Rattle.omega_text.specs.Cut.{IsCut, IsRefusedBy};
ghost use Rattle.omega_text.specs.Lexeme.{lexeme_of};

use crate::refusal::Refusal;
use crate::token::Token;
use crate::token_kind::TokenKind;
use std::alloc::Global;

/// Returns all tokens of a text, in order. Refused with [TextFault::Lex] or [TextFault::Number] at the least place of a
/// fault, or with [Refusal::Memory].
pub(crate) fn all_tokens<K: TokenKind>(
    alloc: Global,
    source: &[u8],
) -> Result<Vec<Token<'_, K>>, Refusal>
    ensures cut { IfOk result (λ tokens. IsCut K.format source.now (map lexeme_of tokens.items)) }
    ensures refused { IfErr result (IsRefusedBy K.format source.now) }
{
    let mut tokens = Vec::new(alloc);
    let mut at = 0;
    while let Some(token) = K::next_token(source, at)? {
        at = token.span.end;
        tokens.push(token)?;
    }
    Ok(tokens)
}
