ghost use Rattle.std.specs.Prelude.{◌≡◌, ◌+◌, ◌<◌, ◌≤◌, ◌^◌, drop, take, length, IfErr, IfNone, IfOk, IfSome};
ghost use Rattle.omega_text.specs.Format.{IsLexical, IsPartAfter};
ghost use Rattle.omega_text.specs.Lexeme.{lexeme_at, lexeme_of};
ghost use Rattle.omega_text.specs.hoa.Cut.{Ends, Follows};
ghost use Rattle.omega_text.specs.private.hoa.Gaps.{IsGapTo};
ghost use Rattle.omega_text.specs.hoa.Fault.{HasFaultFrom};

use super::kind::HoaKind;
use super::plain::plain_unit;
use super::unit::first_unit;
use crate::bytes::{is_white, tail};
use crate::refusal::TextFault;
use crate::token::{Span, Token};

/// Returns the next token of a Hanoi text from `at` on, or none if only a gap is left.
///
/// White space and comments before the token are skipped. A fault is [TextFault::Lex] or [TextFault::Number], at the
/// least place from there.
///
/// No memory is taken. Each byte up to the end of the token is looked at once, or a few times in a comment, a mark, a
/// string with a backslash or a fault. The byte after the token may be looked at too.
#[inline(always)]
pub fn next_hoa_token(source: &[u8], at: usize) -> Result<Option<Token<'_, HoaKind>>, TextFault>
    requires { at ≤ length source.now }
    ensures token { IfOk result
        (λ found. IfSome found (λ token. Follows source.now at (lexeme_of token))) }
    ensures end { IfOk result (λ found. IfNone found (Ends source.now at)) }
    ensures fault { IfErr result (HasFaultFrom source.now at) }
    ensures lexical { IfErr result IsLexical }
    ensures progress { IfOk result
        (λ found. IfSome found (λ token. IsPartAfter source.now at token.span)) }
{
    match plain_hoa_token(source, at) {
        Some(token) => Ok(Some(token)),
        None => next_later(source, at),
    }
}

/// Returns the next token from `at` on, if only white bytes precede it, and its first byte and a run of bytes after it
/// determine it.
#[inline(always)]
pub(super) fn plain_hoa_token(source: &[u8], at: usize) -> Option<Token<'_, HoaKind>>
    requires { at ≤ length source.now }
    ensures token { IfSome result (λ token. Follows source.now at (lexeme_of token)) }
    ensures progress { IfSome result (λ token. IsPartAfter source.now at token.span) }
{
    let mut start = at;
    while start < source.len() {
        if is_white(source[start]) {
            start += 1;
            continue;
        }
        let bytes = tail(source, start);
        let unit = plain_unit(bytes)?;
        let kind = unit.kind?;
        return Some(front_token(bytes, start, kind, unit.value, unit.count));
    }
    None
}

/// Does what `next_after` does. The call is a function of its own so that only its result goes through memory, and not
/// a token that was recognized at once.
#[inline(always)]
fn next_later(source: &[u8], at: usize) -> Result<Option<Token<'_, HoaKind>>, TextFault>
    requires { at ≤ length source.now }
    ensures token { IfOk result
        (λ found. IfSome found (λ token. Follows source.now at (lexeme_of token))) }
    ensures end { IfOk result (λ found. IfNone found (Ends source.now at)) }
    ensures fault { IfErr result (HasFaultFrom source.now at) }
    ensures lexical { IfErr result IsLexical }
    ensures progress { IfOk result
        (λ found. IfSome found (λ token. IsPartAfter source.now at token.span)) }
{
    match next_after(source, at) {
        Ok(found) => Ok(found),
        Err(fault) => Err(fault),
    }
}

/// Returns the next token from `at` on, whatever follows there.
#[inline(never)]
fn next_after(source: &[u8], at: usize) -> Result<Option<Token<'_, HoaKind>>, TextFault>
    requires { at ≤ length source.now }
    ensures token { IfOk result
        (λ found. IfSome found (λ token. Follows source.now at (lexeme_of token))) }
    ensures end { IfOk result (λ found. IfNone found (Ends source.now at)) }
    ensures fault { IfErr result (HasFaultFrom source.now at) }
    ensures lexical { IfErr result IsLexical }
    ensures progress { IfOk result
        (λ found. IfSome found (λ token. IsPartAfter source.now at token.span)) }
{
    let mut start = at;
    while start < source.len() {
        let bytes = tail(source, start);
        let unit = first_unit(bytes, start)?;
        match unit.kind {
            Some(kind) => {
                let token = front_token(bytes, start, kind, unit.value, unit.count);
                return Ok(Some(token));
            }
            None => start += unit.count,
        }
    }
    Ok(None)
}

/// Makes the token of `kind` and `value` of the first `count` bytes.
fn front_token(
    bytes: &[u8],
    place: usize,
    kind: HoaKind,
    value: u32,
    count: usize,
) -> Token<'_, HoaKind>
    requires within { count ≤ length bytes.now }
    requires room { place + length bytes.now < 2 ^ 64 }
    ensures { lexeme_of result ≡ lexeme_at place kind value (take count bytes.now) }
{
    Token {
        text: &bytes[..count],
        span: Span {
            start: place,
            end: place + count,
        },
        value,
        kind,
    }
}
