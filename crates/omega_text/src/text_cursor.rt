ghost use Rattle.std.specs.Prelude.{◌≡◌, ◌≤◌, List, Some, drop, length, option_map, IfSome};
ghost use Rattle.omega_text.specs.Cursor.{next_place};
ghost use Rattle.omega_text.specs.Cut.{IsCut};
ghost use Rattle.omega_text.specs.private.Left.{IsAllLeft, IsRestOfText, Left, Left-prop, next_of};
ghost use Rattle.omega_text.specs.Lexeme.{Lexeme, lexeme_of};

use crate::token::{Span, Token};
use crate::token_kind::TokenKind;
use crate::token_source::TokenSource;
use std::marker::Model;

/// A cursor over the tokens of a text that can be cut, without a list of them. No call takes memory, and each token is
/// cut once.
///
/// Contracts see the tokens that are left, without the addresses of their bytes, and the length of the text.
#[derive(Drop)]
pub struct TextCursor<'a, K: TokenKind> {
    source: &'a [u8],
    // The next token is kept part by part, so that a call reads and writes the parts that it needs and no padding.
    text: &'a [u8],
    span: Span,
    value: u32,
    kind: Option<K>,
    ghost left: { Left K.format source.now (next_of kind text.now value span) } by { Left-prop
        K.code K.format source.now (next_of kind text.now value span) },
    ghost place: { span.start ≡ next_place left.lexemes (length source.now) },
}

impl<'a, K: TokenKind> Model for TextCursor<'a, K> {
    ghost use Rattle.std.specs.Prelude.{List, length, ℕ};
    ghost use Rattle.omega_text.specs.Lexeme.{Lexeme};

    ghost Value = { List (Lexeme K) × ℕ };

    ghost view = { λ c. (c.left.lexemes, length c.source.now) };
}

impl<'a, K: TokenKind> TextCursor<'a, K> {
    /// Makes a cursor before the first token of `source`, which can be cut.
    pub fn new(source: &'a [u8]) -> Self
        requires cut { (lexemes : List (Lexeme K)) × IsCut K.format source.now lexemes }
        ensures cut { IsCut K.format source.entry.now result.0 }
        ensures length { result.1 ≡ length source.entry.now }
    {
        match next_left::<K>(source, 0) {
            Some(token) => TextCursor {
                source,
                text: token.text,
                span: token.span,
                value: token.value,
                kind: Some(token.kind),
            },
            None => TextCursor {
                source,
                text: source,
                span: end_of(source),
                value: 0,
                kind: None,
            },
        }
    }

    /// Passes the next token, if there is one.
    #[inline(never)]
    pub fn skip(&mut self)
        ensures left { self.new.0 ≡ drop 1 self.old.0 }
        ensures length { self.new.1 ≡ self.old.1 }
    {
        let Some(_) = self.kind else {
            return;
        };
        match plain_left::<K>(self.source, self.span.end) {
            Some(token) => {
                self.text = token.text;
                self.span = token.span;
                self.value = token.value;
                self.kind = Some(token.kind);
            }
            None => self.skip_to_any(),
        }
    }

    /// Passes the next token, whatever the token after it is.
    #[inline(never)]
    fn skip_to_any(&mut self)
        ensures left { self.new.0 ≡ drop 1 self.old.0 }
        ensures length { self.new.1 ≡ self.old.1 }
    {
        let Some(_) = self.kind else {
            return;
        };
        match next_left::<K>(self.source, self.span.end) {
            Some(token) => {
                self.text = token.text;
                self.span = token.span;
                self.value = token.value;
                self.kind = Some(token.kind);
            }
            None => {
                self.span = end_of(self.source);
                self.kind = None;
            }
        }
    }
}

impl<'a, K: TokenKind> TokenSource<'a, K> for TextCursor<'a, K> {
    ghost left = { λ cursor. cursor.0 };

    ghost length = { λ cursor. cursor.1 };

    #[inline(always)]
    fn look(&self) -> Option<Token<'a, K>> {
        let kind = self.kind?;
        Some(Token {
            text: self.text,
            span: self.span,
            value: self.value,
            kind,
        })
    }

    #[inline(always)]
    fn take(&mut self) -> Option<Token<'a, K>> {
        let token = self.look();
        self.skip();
        token
    }

    #[inline(always)]
    fn place(&self) -> usize {
        self.span.start
    }
}

/// Returns the empty span at the end of `source`.
fn end_of(source: &[u8]) -> Span
    ensures start { result.start ≡ length source.now }
{
    Span {
        start: source.len(),
        end: source.len(),
    }
}

/// Returns the next token from `at` on of a text that can be cut, or none at its end.
#[inline(always)]
fn next_left<K: TokenKind>(source: &[u8], at: usize) -> Option<Token<'_, K>>
    requires within { at ≤ length source.now }
    requires cut { ∥ ((lexemes : List (Lexeme K)) × IsRestOfText K.format source.now at lexemes) ∥₁ }
    ensures { (lexemes : List (Lexeme K)) → IsRestOfText K.format source.now at lexemes
        → IsAllLeft K.format source.now (option_map lexeme_of result) lexemes }
{
    K::goes_on_one_way();
    match K::next_token(source, at) {
        Ok(next) => next,
        Err(_) => unreachable!(),
    }
}

/// Returns the next token from `at` on, if it is recognized at once.
#[inline(always)]
fn plain_left<K: TokenKind>(source: &[u8], at: usize) -> Option<Token<'_, K>>
    requires { at ≤ length source.now }
    ensures { IfSome result
        (λ token. (lexemes : List (Lexeme K)) → IsRestOfText K.format source.now at lexemes
        → IsAllLeft K.format source.now (Some (lexeme_of token)) lexemes) }
{
    K::goes_on_one_way();
    K::plain_token(source, at)
}
