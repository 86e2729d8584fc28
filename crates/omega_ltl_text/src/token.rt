//! One token of the text of a formula.

ghost use Rattle.std.specs.Prelude.{◌≡◌, ◌+◌, ◌^◌, ◌<◌, ◌≤◌, false, length, drop, slice_index, take};
ghost use Rattle.std.specs.Prelude.{IfErr, IfNone, IfOk, IfSome};
ghost use Rattle.omega_text.specs.Bytes.{is_white};
ghost use Rattle.omega_text.specs.Format.{IsPartAfter};
ghost use Rattle.omega_text.specs.Lexeme.{lexeme_at, lexeme_of};
ghost use Rattle.omega_text.specs.pg.Cut.{IsGap};
ghost use Rattle.omega_ltl_text.specs.Cut.{Follows, HasFaultFrom};

use crate::bytes::is_white;
use crate::front::{Front, front_token};
use crate::kind::FormulaKind;
use omega_text::{Span, TextFault, Token};

/// Returns the next token of a formula's text from `at` on, or none if only white space is left. Takes no memory.
///
/// Fails with [TextFault::Lex] at the first bytes after white space if they begin no token.
pub(crate) fn next_formula_token(
    source: &[u8],
    at: usize,
) -> Result<Option<Token<'_, FormulaKind>>, TextFault>
    requires { at ≤ length source.now }
    ensures token { IfOk result
        (λ found. IfSome found (λ token. Follows source.now at (lexeme_of token))) }
    ensures end { IfOk result (λ found. IfNone found (IsGap source.now at (length source.now))) }
    ensures fault { IfErr result (HasFaultFrom source.now at) }
    ensures progress { IfOk result
        (λ found. IfSome found (λ token. IsPartAfter source.now at token.span)) }
{
    let start = gap_end(source, at);
    if start == source.len() {
        return Ok(None);
    }
    let bytes = tail(source, start);
    match front_token(bytes) {
        None => Err(TextFault::Lex { at: start }),
        Some(front) => Ok(Some(token_at(bytes, start, front))),
    }
}

/// Returns the end of the white space at `from`.
fn gap_end(source: &[u8], from: usize) -> usize
    requires { from ≤ length source.now }
    ensures gap { IsGap source.now from result }
    ensures black { result < length source.now → is_white (slice_index source.now result) ≡ false }
{
    let mut end = from;
    while end < source.len() {
        if !is_white(source[end]) {
            return end;
        }
        end += 1;
    }
    end
}

/// Returns the bytes of `source` from `from` on.
fn tail(source: &[u8], from: usize) -> &[u8]
    requires { from ≤ length source.now }
    ensures { result.now ≡ drop from source.now }
{
    &source[from..]
}

/// Makes the token `front`, with which `bytes` at `place` of the text begin.
fn token_at(bytes: &[u8], place: usize, front: Front) -> Token<'_, FormulaKind>
    requires within { front.count ≤ length bytes.now }
    requires room { place + length bytes.now < 2 ^ 64 }
    ensures { lexeme_of result ≡ lexeme_at place front.kind 0 (take front.count bytes.now) }
{
    Token {
        text: &bytes[..front.count],
        span: Span {
            start: place,
            end: place + front.count,
        },
        value: 0,
        kind: front.kind,
    }
}
