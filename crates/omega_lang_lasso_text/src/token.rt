ghost use Rattle.std.specs.Prelude.{◌≡◌, ◌≢◌, ◌≤◌, codes, length, IfErr, IfNone, IfOk, IfSome};
ghost use Rattle.std.specs.List.{prefix_len};
ghost use Rattle.omega_text.specs.Bytes.{is_word_byte};
ghost use Rattle.omega_text.specs.Format.{IsPartAfter};
ghost use Rattle.omega_text.specs.Lexeme.{lexeme_of};
ghost use Rattle.omega_text.specs.pg.Cut.{IsGap};
ghost use Rattle.omega_lang_lasso_text.specs.Cut.{Follows};
ghost use Rattle.omega_lang_lasso_text.specs.Fault.{HasFaultFrom};
ghost use Rattle.omega_lang_lasso_text.specs.private.Words.{IsOtherWord, IsWordOf, IsWordToken};

use crate::kind::LassoKind;
use omega_text::{PgKind, Span, TextFault, Token, next_pg_token};

/// Returns the next token of a lasso text from the place `at` on, or none if only white space is left.
///
/// White space and numbers are read as in game texts. A word that no game text has is read again. No memory is taken,
/// and no byte after the token is looked at, except the one after a number or a word.
///
/// Fails with [TextFault::Lex] or [TextFault::Number], at the least place from there.
pub(crate) fn next_lasso_token(
    source: &[u8],
    at: usize,
) -> Result<Option<Token<'_, LassoKind>>, TextFault>
    requires { at ≤ length source.now }
    ensures token { IfOk result
        (λ found. IfSome found (λ token. Follows source.now at (lexeme_of token))) }
    ensures end { IfOk result (λ found. IfNone found (IsGap source.now at (length source.now))) }
    ensures fault { IfErr result (HasFaultFrom source.now at) }
    ensures progress { IfOk result
        (λ found. IfSome found (λ token. IsPartAfter source.now at token.span)) }
{
    match next_pg_token(source, at) {
        Ok(None) => Ok(None),
        Ok(Some(token)) => match token.kind {
            PgKind::Number => Ok(Some(Token {
                text: token.text,
                span: token.span,
                value: token.value,
                kind: LassoKind::Number,
            })),
            _ => Err(TextFault::Lex {
                at: token.span.start,
            }),
        },
        Err(fault) => match fault {
            TextFault::Lex { at: place } => match word_token(source, place) {
                Ok(word) => Ok(Some(word)),
                Err(other) => Err(other),
            },
            _ => Err(fault),
        },
    }
}

/// Returns the token of the word at `place`, if it is one. Otherwise fails with [TextFault::Lex].
fn word_token(source: &[u8], place: usize) -> Result<Token<'_, LassoKind>, TextFault>
    requires { place ≤ length source.now }
    ensures token { IfOk result (λ token. IsWordToken source.now place (lexeme_of token)) }
    ensures fault { IfErr result (λ fault. IsOtherWord source.now place fault) }
{
    let bytes = &source[place..];
    let count = word_count(bytes);
    let word = &bytes[..count];
    match kind_of(word) {
        Some(kind) => Ok(Token {
            text: word,
            span: Span {
                start: place,
                end: place + count,
            },
            value: 0,
            kind,
        }),
        None => Err(TextFault::Lex { at: place }),
    }
}

/// Returns the kind of `word`, if it is a token.
fn kind_of(word: &[u8]) -> Option<LassoKind>
    ensures word { IfSome result (λ kind. IsWordOf kind word.now) }
    ensures no_stem { IfNone result (word.now ≢ codes "stem") }
    ensures no_cycle { IfNone result (word.now ≢ codes "cycle") }
{
    if word == b"stem".as_slice() {
        Some(LassoKind::Stem)
    } else if word == b"cycle".as_slice() {
        Some(LassoKind::Cycle)
    } else {
        None
    }
}

/// Returns the number of bytes at the front that may be in a word.
fn word_count(bytes: &[u8]) -> usize
    ensures { result ≡ prefix_len is_word_byte bytes.now }
{
    bytes.iter().take_while(|byte| is_word_byte(**byte)).count()
}

/// Whether `byte` may be in a word.
fn is_word_byte(byte: u8) -> bool
    ensures { result ≡ is_word_byte byte }
{
    byte.is_ascii_alphanumeric() || byte == b'_' || byte == b'-'
}
