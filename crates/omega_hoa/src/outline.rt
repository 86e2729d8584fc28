ghost use Rattle.std.specs.Prelude.{[], ◌∷◌, IfErr, IfOk};
ghost use Rattle.omega_text.specs.Cut.{IsFault};
ghost use Rattle.omega_text.specs.Lexeme.{lexeme_of};
ghost use Rattle.omega_text.specs.hoa.Format.{hoa_format};
ghost use Rattle.omega_hoa.specs.declared.outline.TextOutline.TheVariants.{Open};
ghost use Rattle.omega_hoa.specs.private.outlines.Outline.{GoesOnWith, HasOutline, IsOutline};

use crate::division::opens;
use omega_text::{HoaKind, TextFault, Token, next_hoa_token};

/// The tokens of a text that is to hold one segment, ended by `--END--`, without the inside of the segment.
#[derive(Clone, Copy)]
pub(crate) enum TextOutline {
    /// There is no token.
    Empty,
    /// The first token, at this place, is not `HOA:`.
    Stray { at: usize },
    /// A segment without end.
    Open,
    /// A segment that `--ABORT--` ends, at this place.
    Aborted { at: usize },
    /// A segment that ends with `--END--`, up to this place.
    Whole { end: usize },
    /// A segment that ends with `--END--`, up to `end`, and after it a token at `next`.
    Followed { end: usize, next: usize },
}

/// Returns the outline of the tokens of `source`, or [TextFault::Lex] or [TextFault::Number] at the least place of a
/// fault. The bytes are looked at once.
pub(crate) fn outline_of(source: &[u8]) -> Result<TextOutline, TextFault>
    ensures outline { IfOk result (HasOutline source.now) }
    ensures fault { IfErr result (IsFault hoa_format source.now) }
{
    let mut outline = TextOutline::Empty;
    let mut at = 0;
    while let Some(token) = next_hoa_token(source, at)? {
        at = token.span.end;
        outline = with_token(outline, &token);
    }
    Ok(outline)
}

/// Returns the outline of the tokens of `outline` and of `token` after them.
fn with_token(outline: TextOutline, token: &Token<'_, HoaKind>) -> TextOutline
    ensures { GoesOnWith outline (lexeme_of token.now) result }
{
    match outline {
        TextOutline::Empty => outline_of_token(token),
        TextOutline::Open => gone_on(token),
        TextOutline::Whole { end } => TextOutline::Followed {
            end,
            next: token.span.start,
        },
        other => other,
    }
}

/// Returns the outline of `token` alone.
fn outline_of_token(token: &Token<'_, HoaKind>) -> TextOutline
    ensures { IsOutline (lexeme_of token.now ∷ []) result }
{
    if opens(token.kind, token.text) {
        TextOutline::Open
    } else {
        TextOutline::Stray {
            at: token.span.start,
        }
    }
}

/// Returns the outline of an open segment and of `token` after it.
fn gone_on(token: &Token<'_, HoaKind>) -> TextOutline
    ensures { GoesOnWith Open (lexeme_of token.now) result }
{
    match token.kind {
        HoaKind::Abort => TextOutline::Aborted {
            at: token.span.start,
        },
        HoaKind::End => TextOutline::Whole {
            end: token.span.end,
        },
        _ => TextOutline::Open,
    }
}
