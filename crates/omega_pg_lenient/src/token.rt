ghost use Rattle.std.specs.Prelude.{◌≡◌, ◌≤◌, codes, drop, length, IfErr, IfNone, IfOk, IfSome};
ghost use Rattle.omega_text.specs.Format.{IsPartAfter};
ghost use Rattle.omega_text.specs.Lexeme.{lexeme_at, lexeme_of};
ghost use Rattle.omega_text.specs.pg.Format.{pg_format};
ghost use Rattle.omega_pg_lenient.specs.Format.{BeginsStart, HasFaultFrom, lenient, lenient_format};
ghost use Rattle.omega_pg_lenient.specs.declared.kind.LenientKind.TheVariants.{Start};

use crate::bytes::{begins_start, tail};
use crate::kind::LenientKind;
use omega_text::{PgKind, Span, TextFault, Token, next_pg_token};

/// Returns the next token of the plain text `source` from `at` on, or none if only white space is left.
///
/// A fault is [TextFault::Lex] or [TextFault::Number], at the least place from there. No memory is taken.
pub(crate) fn next_lenient_token(
    source: &[u8],
    at: usize,
) -> Result<Option<Token<'_, LenientKind>>, TextFault>
    requires { at ≤ length source.now }
    ensures token { IfOk result
        (λ found. IfSome found (λ token. lenient_format.follows source.now at (lexeme_of token))) }
    ensures end { IfOk result (λ found. IfNone found (lenient_format.ends source.now at)) }
    ensures fault { IfErr result (lenient_format.faults source.now at) }
{
    match next_pg_token(source, at) {
        Ok(Some(token)) => Ok(Some(lenient_token(token))),
        Ok(None) => Ok(None),
        Err(TextFault::Lex { at: place }) => {
            if begins_start(tail(source, place)) {
                Ok(Some(start_token(source, place)))
            } else {
                Err(TextFault::Lex { at: place })
            }
        }
        Err(fault) => Err(fault),
    }
}

/// Returns a token of a strict text as one of a lenient text.
#[inline(always)]
fn lenient_token(token: Token<'_, PgKind>) -> Token<'_, LenientKind>
    ensures { lexeme_of result ≡ lenient (lexeme_of token.entry) }
{
    Token {
        text: token.text,
        span: token.span,
        value: token.value,
        kind: LenientKind::Strict(token.kind),
    }
}

/// Returns the token of the word `start`, which is in `source` at `place`.
fn start_token(source: &[u8], place: usize) -> Token<'_, LenientKind>
    requires begins { BeginsStart (drop place source.now) }
    ensures { lexeme_of result ≡ lexeme_at place Start 0 (codes "start") }
{
    Token {
        text: &source[place..place + 5],
        span: Span {
            start: place,
            end: place + 5,
        },
        value: 0,
        kind: LenientKind::Start,
    }
}
