ghost use Rattle.std.specs.Prelude.{◌≡◌, [], ◌∷◌, map, option_map, slice_get, IfNone, IfSome};

use crate::token::Token;
use std::marker::Model;

/// A cursor over tokens, which knows the length of their text. No call takes memory.
///
/// Contracts see the tokens that are left, without the addresses of their bytes, and the length.
#[derive(Drop)]
pub struct Cursor<'t, 'a, K> {
    left: &'t [Token<'a, K>],
    length: usize,
}

impl<'t, 'a, K> Model for Cursor<'t, 'a, K> {
    ghost use Rattle.std.specs.Prelude.{List, map, ℕ};
    ghost use Rattle.omega_text.specs.Lexeme.{Lexeme, lexeme_of};

    ghost Value = { List (Lexeme K) × ℕ };

    ghost view = { λ c. (map lexeme_of c.left.now, c.length) };
}

impl<'t, 'a, K: Copy> Cursor<'t, 'a, K> {
    ghost use Rattle.omega_text.specs.Cursor.{next_place};
    ghost use Rattle.omega_text.specs.Lexeme.{lexeme_of};

    /// Makes a cursor before the first of `tokens`; `length` is the length of the text in bytes.
    pub fn new(tokens: &'t [Token<'a, K>], length: usize) -> Self
        ensures tokens { result.0 ≡ map lexeme_of tokens.entry.now }
        ensures length { result.1 ≡ length }
    {
        Cursor {
            left: tokens,
            length,
        }
    }

    /// Returns the next token without passing it, or none at the end.
    pub fn look(&self) -> Option<Token<'a, K>>
        ensures { option_map lexeme_of result ≡ slice_get self.now.0 0 }
    {
        self.left.first().copied()
    }

    /// Returns the next token and passes it, or returns none at the end.
    pub fn take(&mut self) -> Option<Token<'a, K>>
        ensures some { IfSome result (λ token. self.old.0 ≡ lexeme_of token ∷ self.new.0) }
        ensures none { IfNone result ((self.old.0 ≡ []) × (self.new.0 ≡ [])) }
        ensures length { self.new.1 ≡ self.old.1 }
    {
        let left = self.left;
        let first = left.first().copied()?;
        self.left = &left[1..];
        Some(first)
    }

    /// Returns the place at which the next token begins, or the length of the text at the end.
    pub fn place(&self) -> usize
        ensures { result ≡ next_place self.now.0 self.now.1 }
    {
        match self.left.first() {
            Some(token) => token.span.start,
            None => self.length,
        }
    }
}
