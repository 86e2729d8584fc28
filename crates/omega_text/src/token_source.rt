ghost use Rattle.std.specs.Prelude.{◌≡◌, [], ◌∷◌, option_map, slice_get, IfNone, IfSome};
ghost use Rattle.omega_text.specs.Cursor.{next_place};

use crate::cursor::Cursor;
use crate::token::Token;

/// A source of the tokens of a text, one by one. No call takes memory.
pub trait TokenSource<'a, K> {
    ghost use Rattle.std.specs.Prelude.{List, ℕ};
    ghost use Rattle.omega_text.specs.Lexeme.{Lexeme, lexeme_of};

    /// The tokens that are left.
    ghost left: { Self → List (Lexeme K) };

    /// The length of the text in bytes.
    ghost length: { Self → ℕ };

    /// Returns the next token without taking it, or none at the end.
    fn look(&self) -> Option<Token<'a, K>>
        ensures { option_map lexeme_of result ≡ slice_get (left self.now) 0 };

    /// Takes and returns the next token, or returns none at the end.
    fn take(&mut self) -> Option<Token<'a, K>>
        ensures some { IfSome result (λ token. left self.old ≡ lexeme_of token ∷ left self.new) }
        ensures none { IfNone result ((left self.old ≡ []) × (left self.new ≡ [])) }
        ensures length { length self.new ≡ length self.old };

    /// Returns the place at which the next token begins, or the length of the text at the end.
    fn place(&self) -> usize
        ensures { result ≡ next_place (left self.now) (length self.now) };
}

impl<'t, 'a, K: Copy> TokenSource<'a, K> for Cursor<'t, 'a, K> {
    ghost left = { λ cursor. cursor.0 };

    ghost length = { λ cursor. cursor.1 };

    fn look(&self) -> Option<Token<'a, K>> {
        Cursor::look(self)
    }

    fn take(&mut self) -> Option<Token<'a, K>> {
        Cursor::take(self)
    }

    fn place(&self) -> usize {
        Cursor::place(self)
    }
}
