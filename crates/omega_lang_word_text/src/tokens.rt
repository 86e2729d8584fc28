//! All tokens of the text of a word.

ghost use Rattle.std.specs.Prelude.{map, IfErr, IfOk};
ghost use Rattle.omega_text.specs.Cut.{IsCut, IsRefusedBy};
ghost use Rattle.omega_text.specs.Lexeme.{lexeme_of};
ghost use Rattle.omega_lang_word_text.specs.Cut.{word_format};

use crate::token::next_word_token;
use omega_text::{HoaKind, Refusal, Token};
use std::alloc::Global;

/// Returns all tokens of the text of a word, in order. Fails with [TextFault::Lex] or [TextFault::Number] at the least
/// place of a fault.
pub(crate) fn word_tokens(alloc: Global, source: &[u8]) -> Result<Vec<Token<'_, HoaKind>>, Refusal>
    ensures cut { IfOk result (λ tokens. IsCut word_format source.now (map lexeme_of tokens.items)) }
    ensures refused { IfErr result (IsRefusedBy word_format source.now) }
{
    let mut tokens = Vec::new(alloc);
    let mut at = 0;
    while let Some(token) = next_word_token(source, at)? {
        at = token.span.end;
        tokens.push(token)?;
    }
    Ok(tokens)
}
