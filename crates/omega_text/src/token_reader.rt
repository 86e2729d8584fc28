ghost use Rattle.std.specs.Prelude.{[], IfErr, IfOk};
ghost use Rattle.omega_text.specs.private.reader.Taking.{IsReadWhole, IsTokenRefusal};

use crate::checking::check_from;
use crate::refusal::{Refusal, TextFault};
use crate::token::Token;
use crate::token_kind::TokenKind;

/// A reader that takes the tokens of a text one by one or in runs, as long as some text of its grammar goes on so.
pub trait TokenReader<K: TokenKind>: Drop {
    ghost use Rattle.std.specs.Prelude.{List, IsOkUnless, ◌≤◌, length};
    ghost use Rattle.omega_text.specs.Lexeme.{Lexeme, lexeme_of};
    ghost use Rattle.omega_text.specs.Reading.{IsTokenOf, IsWholeOrUnfinished, TakesOrRefuses, TakesRun};

    /// A new reader, by taking these tokens, became another.
    ghost becomes: { Self → List (Lexeme K) → Self → Type 0 };

    /// Tokens begin a text of the grammar.
    ghost begins: { List (Lexeme K) → Type 0 };

    /// Tokens are a text of the grammar.
    ghost completes: { List (Lexeme K) → Type 0 };

    /// Takes `token`, and returns false if no text goes on so.
    fn take(&mut self, token: &Token<'_, K>) -> Result<bool, Refusal>
        requires begun { ((start : Self) × ((before : List (Lexeme K)) × becomes start before self.old)) }
        requires token { IsTokenOf K.format (lexeme_of token.now) }
        ensures takes { IfOk result (λ taken. (start : Self) (before : List (Lexeme K))
            → becomes start before self.old → TakesOrRefuses taken begins
            (λ all. becomes start all self.new) before (lexeme_of token.now)) }
        ensures memory { IsOkUnless result Refusal.Memory };

    /// Takes as many tokens from `from` on as can be taken at once, and returns the place after them. A reader that
    /// takes its tokens one by one takes none here.
    fn take_run(&mut self, source: &[u8], from: usize) -> Result<usize, Refusal>
        requires begun { ((start : Self) × ((before : List (Lexeme K)) × becomes start before self.old)) }
        requires within { from ≤ length source.now }
        ensures takes { IfOk result
            (λ to. (start : Self) (before : List (Lexeme K)) → becomes start before self.old
            → TakesRun K.format (λ all. becomes start all self.new) source.now from to before) }
        ensures forward { IfOk result (λ to. from ≤ to) }
        ensures inside { IfOk result (λ to. to ≤ length source.now) }
        ensures memory { IsOkUnless result Refusal.Memory }
    {
        Ok(from)
    }

    /// Whether the tokens that were taken are a text.
    fn is_complete(&self) -> bool
        requires { ((start : Self) × ((before : List (Lexeme K)) × becomes start before self.now)) }
        ensures { (start : Self) (before : List (Lexeme K))
            → becomes start before self.now → IsWholeOrUnfinished result begins completes before };
}

/// Returns what `reader` becomes by the tokens of `bytes`, if they can be cut and no token is wrong.
///
/// The bytes are read once, from the left. A fault of tokens comes before a wrong token, wherever it is.
pub(crate) fn read_tokens<K: TokenKind, R: TokenReader<K>>(
    mut reader: R,
    bytes: &[u8],
) -> Result<R, Refusal>
    requires { R.becomes reader [] reader }
    ensures read { IfOk result
        (λ after. IsReadWhole K.format (λ lexemes. R.becomes reader lexemes after) bytes.now) }
    ensures refused { IfErr result (IsTokenRefusal K.format R.begins bytes.now) }
{
    let mut at = reader.take_run(bytes, 0)?;
    while let Some(token) = K::next_token(bytes, at)? {
        if !reader.take(&token)? {
            check_from::<K>(bytes, token.span.end)?;
            return Err(Refusal::Text(TextFault::Syntax {
                at: token.span.start,
            }));
        }
        at = reader.take_run(bytes, token.span.end)?;
    }
    Ok(reader)
}
