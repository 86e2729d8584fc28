//! One token of the text of a word.

ghost use Rattle.std.specs.Prelude.{◌≡◌, ◌+◌, ◌≤◌, length, IfErr, IfNone, IfOk, IfSome};
ghost use Rattle.omega_text.specs.Format.{IsLexical, IsPartAfter};
ghost use Rattle.omega_text.specs.Lexeme.{lexeme_of};
ghost use Rattle.omega_text.specs.hoa.Cut.{Ends};
ghost use Rattle.omega_lang_word_text.specs.Cut.{Follows, HasFaultFrom, semicolon_at};
ghost use Rattle.omega_lang_word_text.specs.private.Parts.{IsSemicolonAt};

use omega_text::{HoaKind, Span, TextFault, Token, next_hoa_token};

/// Returns the next token of the text of a word from `at` on, or none if only white space and comments are left: one of
/// the Hanoi format, or a semicolon, which is a word of its own.
///
/// No memory is taken. Fails with [TextFault::Lex] or [TextFault::Number], at the least place from there.
pub(crate) fn next_word_token(
    source: &[u8],
    at: usize,
) -> Result<Option<Token<'_, HoaKind>>, TextFault>
    requires { at ≤ length source.now }
    ensures token { IfOk result
        (λ found. IfSome found (λ token. Follows source.now at (lexeme_of token))) }
    ensures end { IfOk result (λ found. IfNone found (Ends source.now at)) }
    ensures fault { IfErr result (HasFaultFrom source.now at) }
    ensures lexical { IfErr result IsLexical }
    ensures progress { IfOk result
        (λ found. IfSome found (λ token. IsPartAfter source.now at token.span)) }
{
    match next_hoa_token(source, at) {
        Ok(found) => Ok(found),
        Err(fault) => match fault {
            TextFault::Lex { at: place } => match semicolon(source, place) {
                Some(token) => Ok(Some(token)),
                None => Err(fault),
            },
            _ => Err(fault),
        },
    }
}

/// Returns the semicolon at `place`, if there is one.
fn semicolon(source: &[u8], place: usize) -> Option<Token<'_, HoaKind>>
    ensures token { IfSome result (λ token. lexeme_of token ≡ semicolon_at place) }
    ensures there { IfSome result (λ token. IsSemicolonAt source.now place) }
    ensures none { IfNone result (¬ IsSemicolonAt source.now place) }
{
    if place < source.len() && source[place] == b';' {
        return Some(Token {
            text: b";",
            span: Span {
                start: place,
                end: place + 1,
            },
            value: 0,
            kind: HoaKind::Identifier,
        });
    }
    None
}
