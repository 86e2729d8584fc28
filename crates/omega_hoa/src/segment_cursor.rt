ghost use Rattle.std.specs.Prelude.{◌≡◌, ◌≤◌, [], drop, length, slice_get};
ghost use Rattle.std.specs.Prelude.{option_map, true, false, IfNone, IfSome, IsTrue};
ghost use Rattle.omega_text.specs.Cursor.{next_place};
ghost use Rattle.omega_text.specs.Format.{IsPartAfter};
ghost use Rattle.omega_text.specs.Lexeme.{lexeme_of};
ghost use Rattle.omega_text.specs.hoa.Cut.{Follows};
ghost use Rattle.omega_hoa.specs.private.Ahead.{Ahead, Ahead-prop, IsFront};
ghost use Rattle.omega_hoa.specs.private.Ahead.{NoneFollows, is_last, token_ahead};

use omega_text::laws::cut_or_fault;
use omega_text::{HoaKind, Span, Token, TokenKind, TokenSource};
use std::marker::Model;

/// A cursor over the tokens at the front of some bytes: up to the first `--END--`, or as far as the bytes can be cut.
/// No call takes memory, and each token is cut once.
///
/// Contracts see the tokens that are left, and the place where the last of them ends. To a reader that is the length of
/// the text.
#[derive(Drop)]
pub(crate) struct SegmentCursor<'a> {
    source: &'a [u8],
    // The next token is kept part by part, so that a call reads and writes the parts that it needs and no padding.
    text: &'a [u8],
    span: Span,
    value: u32,
    kind: Option<HoaKind>,
    ghost ahead: { Ahead source.now (token_ahead kind text.now value span)
        span.start } by { Ahead-prop source.now (token_ahead kind text.now value span) span.start },
    ghost place: { span.start ≡ next_place ahead.front.0 ahead.front.1 },
}

impl<'a> Model for SegmentCursor<'a> {
    ghost use Rattle.std.specs.Prelude.{List, ℕ};
    ghost use Rattle.omega_text.specs.Lexeme.{Lexeme};
    ghost use Rattle.omega_text.specs.declared.hoa.kind.HoaKind.{HoaKind};

    ghost Value = { List (Lexeme HoaKind) × ℕ };

    ghost view = { λ c. c.ahead.front };
}

impl<'a> SegmentCursor<'a> {
    /// Makes a cursor before the first token of `source`.
    pub(crate) fn new(source: &'a [u8]) -> Self
        ensures { IsFront source.entry.now false 0 result.0 result.1 }
    {
        cut_or_fault::<HoaKind>();
        HoaKind::goes_on_one_way();
        match token_at(source, 0) {
            Some(token) => SegmentCursor {
                source,
                text: token.text,
                span: token.span,
                value: token.value,
                kind: Some(token.kind),
            },
            None => SegmentCursor {
                source,
                text: source,
                span: empty_span(0),
                value: 0,
                kind: None,
            },
        }
    }

    /// Passes the next token, if there is one.
    #[inline(never)]
    fn skip(&mut self)
        ensures left { self.new.0 ≡ drop 1 self.old.0 }
        ensures length { self.new.1 ≡ self.old.1 }
    {
        let Some(kind) = self.kind else {
            return;
        };
        HoaKind::goes_on_one_way();
        match plain_after(self.source, self.span.end, kind) {
            Some(token) => {
                self.text = token.text;
                self.span = token.span;
                self.value = token.value;
                self.kind = Some(token.kind);
            }
            None => self.skip_to_any(),
        }
    }

    /// Passes the next token, whatever the token after it is.
    #[inline(never)]
    fn skip_to_any(&mut self)
        ensures left { self.new.0 ≡ drop 1 self.old.0 }
        ensures length { self.new.1 ≡ self.old.1 }
    {
        let Some(kind) = self.kind else {
            return;
        };
        HoaKind::goes_on_one_way();
        match token_after(self.source, self.span.end, kind) {
            Some(token) => {
                self.text = token.text;
                self.span = token.span;
                self.value = token.value;
                self.kind = Some(token.kind);
            }
            None => {
                self.span = empty_span(self.span.end);
                self.kind = None;
            }
        }
    }
}

impl<'a> TokenSource<'a, HoaKind> for SegmentCursor<'a> {
    ghost left = { λ cursor. cursor.0 };

    ghost length = { λ cursor. cursor.1 };

    #[inline(always)]
    fn look(&self) -> Option<Token<'a, HoaKind>> {
        let kind = self.kind?;
        Some(Token {
            text: self.text,
            span: self.span,
            value: self.value,
            kind,
        })
    }

    #[inline(always)]
    fn take(&mut self) -> Option<Token<'a, HoaKind>> {
        let token = self.look();
        self.skip();
        token
    }

    #[inline(always)]
    fn place(&self) -> usize {
        self.span.start
    }
}

/// Returns the empty span at `at`.
fn empty_span(at: usize) -> Span
    ensures start { result.start ≡ at }
{
    Span { start: at, end: at }
}

/// Returns the next token from `at` on, after one of this `kind`. There is none after `--END--`.
#[inline(always)]
fn token_after(source: &[u8], at: usize, kind: HoaKind) -> Option<Token<'_, HoaKind>>
    requires { at ≤ length source.now }
    ensures going_on { IfSome result (λ _. is_last kind ≡ false) }
    ensures token { IfSome result (λ token. Follows source.now at (lexeme_of token)) }
    ensures progress { IfSome result (λ token. IsPartAfter source.now at token.span) }
    ensures none { IfNone result (is_last kind ≡ false → NoneFollows source.now at) }
{
    match kind {
        HoaKind::End => None,
        _ => token_at(source, at),
    }
}

/// Returns the next token from `at` on, after one of this `kind`, if it is recognized at once.
#[inline(always)]
fn plain_after(source: &[u8], at: usize, kind: HoaKind) -> Option<Token<'_, HoaKind>>
    requires { at ≤ length source.now }
    ensures going_on { IfSome result (λ _. is_last kind ≡ false) }
    ensures token { IfSome result (λ token. Follows source.now at (lexeme_of token)) }
    ensures progress { IfSome result (λ token. IsPartAfter source.now at token.span) }
{
    if is_last(kind) {
        return None;
    }
    HoaKind::plain_token(source, at)
}

/// Whether a token of this `kind` is the last of a segment.
#[inline(always)]
fn is_last(kind: HoaKind) -> bool
    ensures { result ≡ is_last kind }
{
    kind == HoaKind::End
}

/// Returns the next token from `at` on, or none if none follows.
#[inline(always)]
fn token_at(source: &[u8], at: usize) -> Option<Token<'_, HoaKind>>
    requires { at ≤ length source.now }
    ensures token { IfSome result (λ token. Follows source.now at (lexeme_of token)) }
    ensures progress { IfSome result (λ token. IsPartAfter source.now at token.span) }
    ensures none { IfNone result (NoneFollows source.now at) }
{
    HoaKind::goes_on_one_way();
    match HoaKind::next_token(source, at) {
        Ok(next) => next,
        Err(_fault) => None,
    }
}
