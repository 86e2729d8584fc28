use crate::refusal::TextFault;
use crate::token::Token;

/// The kinds of a format's tokens, by which its texts are cut.
pub trait TokenKind: Copy {
    ghost use Rattle.std.specs.Prelude.{length, ◌≤◌, IfErr, IfOk, IfNone, IfSome};
    ghost use Rattle.omega_text.specs.Format.{TextFormat, GoesOneWay, IsLexical, IsPartAfter};
    ghost use Rattle.omega_text.specs.Lexeme.{lexeme_of};

    /// How texts of the format go on from each place.
    ghost format: { TextFormat Self };

    /// Returns the next token of `source` from `at` on, or none if only what the format passes over is left.
    fn next_token(source: &[u8], at: usize) -> Result<Option<Token<'_, Self>>, TextFault>
        requires { at ≤ length source.now }
        ensures token { IfOk result
            (λ found. IfSome found (λ token. format.follows source.now at (lexeme_of token))) }
        ensures end { IfOk result (λ found. IfNone found (format.ends source.now at)) }
        ensures fault { IfErr result (format.faults source.now at) }
        ensures lexical { IfErr result IsLexical }
        ensures progress { IfOk result
            (λ found. IfSome found (λ token. IsPartAfter source.now at token.span)) };

    /// Returns the next token from `at` on, if it is recognized at once. `None` may come if there is a token too: call
    /// `next_token` then.
    fn plain_token(source: &[u8], at: usize) -> Option<Token<'_, Self>>
        requires { at ≤ length source.now }
        ensures token { IfSome result (λ token. format.follows source.now at (lexeme_of token)) }
        ensures progress { IfSome result (λ token. IsPartAfter source.now at token.span) };

    /// States that from each place a text goes on in one way. An implementation proves this law.
    fn goes_on_one_way()
        ensures { GoesOneWay format };
}
