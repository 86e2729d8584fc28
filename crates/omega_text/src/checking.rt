ghost use Rattle.std.specs.Prelude.{◌≤◌, length, IfErr, List, OnOk};
ghost use Rattle.omega_text.specs.Cut.{IsCut, IsFault};
ghost use Rattle.omega_text.specs.Format.{IsLexical};
ghost use Rattle.omega_text.specs.Lexeme.{Lexeme};
ghost use Rattle.omega_text.specs.private.Left.{IsFaultFrom, IsRestOfText};

use crate::refusal::TextFault;
use crate::token_kind::TokenKind;

/// Checks that `source` can be cut into tokens. If not, returns [TextFault::Lex] or [TextFault::Number] at the least
/// place of a fault.
///
/// No memory is taken, and each token is cut once. A text that passes can be read by a `TextCursor`.
pub fn check_tokens<K: TokenKind>(source: &[u8]) -> Result<(), TextFault>
    ensures cut { OnOk result ((lexemes : List (Lexeme K)) × IsCut K.format source.now lexemes) }
    ensures fault { IfErr result (IsFault K.format source.now) }
    ensures lexical { IfErr result IsLexical }
{
    check_from::<K>(source, 0)
}

/// Checks that `source` can be cut into tokens from `from` on, as `check_tokens` does for a whole text.
pub(crate) fn check_from<K: TokenKind>(source: &[u8], from: usize) -> Result<(), TextFault>
    requires { from ≤ length source.now }
    ensures cut { OnOk result
        ((lexemes : List (Lexeme K)) × IsRestOfText K.format source.now from lexemes) }
    ensures fault { IfErr result (IsFaultFrom K.format source.now from) }
    ensures lexical { IfErr result IsLexical }
{
    let mut at = from;
    while let Some(token) = K::next_token(source, at)? {
        at = token.span.end;
    }
    Ok(())
}
