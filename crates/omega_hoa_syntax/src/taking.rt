//! Single tokens of a source.

ghost use Rattle.std.specs.Prelude.{◌≡◌, ◌∷◌, List, IfErr, IfNone, IfOk, IfSome, OnOk};
ghost use Rattle.omega_text.specs.Cases.{IsMemory};
ghost use Rattle.omega_hoa_syntax.specs.Grammar.{int_row, string_row, word_row};
ghost use Rattle.omega_hoa_expression.specs.Passing.{IsMissing, NextIsNot};
ghost use Rattle.omega_hoa_syntax.specs.private.steps.Reading.{Anything, Finds, FindsSymbol, GivesRow, IsAny};
ghost use Rattle.omega_hoa_syntax.specs.Symbols.{ReadsSymbols, AutomatonSymbol};
ghost use Rattle.omega_hoa_syntax.specs.Symbols.{Tokens, header, sign, without_last};
ghost use Rattle.omega_text.specs.Forms.{between_quotes};
ghost use Rattle.omega_text.specs.Lexeme.{lexeme_of};

use crate::same::is_name;
use omega_text::{ByteString, HoaKind, Refusal, TextFault, Token, TokenSource};
use std::alloc::Global;

/// Takes the next token if it is of `kind`.
pub(crate) fn take_if<'a, S: TokenSource<'a, HoaKind>>(
    source: &mut S,
    kind: HoaKind,
) -> Option<Token<'a, HoaKind>>
    ensures some { IfSome result (λ token.
        (S.left source.old ≡ lexeme_of token ∷ S.left source.new) × (token.kind ≡ kind)) }
    ensures none { IfNone result
        ((S.left source.new ≡ S.left source.old) × NextIsNot kind (S.left source.old)) }
    ensures length { S.length source.new ≡ S.length source.old }
{
    let token = source.look()?;
    if token.kind != kind {
        return None;
    }
    source.take()
}

/// Takes the next token. Refused with [TextFault::Syntax] at its place if it is not of `kind`.
pub(crate) fn take_kind<'a, S: TokenSource<'a, HoaKind>>(
    source: &mut S,
    kind: HoaKind,
) -> Result<Token<'a, HoaKind>, Refusal>
    ensures ok { IfOk result (λ token.
        (S.left source.old ≡ lexeme_of token ∷ S.left source.new) × (token.kind ≡ kind)) }
    ensures err { IfErr result (IsMissing kind (S.left source.old) (S.length source.old)) }
    ensures length { S.length source.new ≡ S.length source.old }
{
    let at = source.place();
    match take_if(source, kind) {
        Some(token) => Ok(token),
        None => Err(Refusal::Text(TextFault::Syntax { at })),
    }
}

/// Copies `bytes`.
pub(crate) fn copy_of_bytes(alloc: Global, bytes: &[u8]) -> Result<ByteString, Refusal>
    ensures ok { IfOk result (λ copy. copy ≡ bytes.now) }
    ensures err { IfErr result IsMemory }
{
    Ok(ByteString::from_slice(alloc, bytes)?)
}

/// Copies the bytes of a string between its quotes.
pub(crate) fn string_of(alloc: Global, quoted: &[u8]) -> Result<ByteString, Refusal>
    ensures ok { IfOk result (λ copy. copy ≡ between_quotes quoted.now) }
    ensures err { IfErr result IsMemory }
{
    if quoted.len() < 2 {
        return Ok(ByteString::new());
    }
    copy_of_bytes(alloc, &quoted[1..quoted.len() - 1])
}

/// Returns the bytes of a header name before its colon.
pub(crate) fn without_colon(name: &[u8]) -> &[u8]
    ensures { result.now ≡ without_last name.now }
{
    &name[..name.len().saturating_sub(1)]
}

/// Takes the next token and drops it. Refused with [TextFault::Syntax] at its place if it is not of `kind`.
pub(crate) fn take_sign<'a, S: TokenSource<'a, HoaKind>>(
    source: &mut S,
    kind: HoaKind,
) -> Result<(), Refusal>
    ensures gives { OnOk result ((others : List AutomatonSymbol) (rest : Tokens)
        → ReadsSymbols (S.left source.new) others rest
        → ReadsSymbols (S.left source.old) (sign kind ∷ others) rest) }
    ensures finds { FindsSymbol (sign kind) (S.left source.old) (S.left source.new)
        (S.length source.old) result }
    ensures length { S.length source.new ≡ S.length source.old }
{
    take_kind(source, kind)?;
    Ok(())
}

/// Takes a header. Refused with [TextFault::Syntax] at its place if it does not have this `name`.
#[inline(always)]
pub(crate) fn take_header<'a, S: TokenSource<'a, HoaKind>>(
    source: &mut S,
    name: &[u8],
) -> Result<(), Refusal>
    ensures gives { OnOk result ((others : List AutomatonSymbol) (rest : Tokens)
        → ReadsSymbols (S.left source.new) others rest
        → ReadsSymbols (S.left source.old) (header name.now ∷ others) rest) }
    ensures finds { FindsSymbol (header name.now) (S.left source.old) (S.left source.new)
        (S.length source.old) result }
    ensures length { S.length source.new ≡ S.length source.old }
{
    let at = source.place();
    let token = take_kind(source, HoaKind::HeaderName)?;
    if !is_name(without_colon(token.text), name) {
        return Err(Refusal::Text(TextFault::Syntax { at }));
    }
    Ok(())
}

/// Takes an INT.
pub(crate) fn take_int<'a, S: TokenSource<'a, HoaKind>>(source: &mut S) -> Result<u32, Refusal>
    ensures gives { GivesRow IsAny int_row (S.left source.old) (S.left source.new) result }
    ensures finds { Finds IsAny int_row Anything (S.left source.old) (S.left source.new)
        (S.length source.old) result }
    ensures length { S.length source.new ≡ S.length source.old }
{
    Ok(take_kind(source, HoaKind::Int)?.value)
}

/// Takes an IDENTIFIER.
pub(crate) fn take_word<'a, S: TokenSource<'a, HoaKind>>(
    alloc: Global,
    source: &mut S,
) -> Result<ByteString, Refusal>
    ensures gives { GivesRow IsAny word_row (S.left source.old) (S.left source.new) result }
    ensures finds { Finds IsAny word_row Anything (S.left source.old) (S.left source.new)
        (S.length source.old) result }
    ensures length { S.length source.new ≡ S.length source.old }
{
    let token = take_kind(source, HoaKind::Identifier)?;
    copy_of_bytes(alloc, token.text)
}

/// Takes a STRING.
pub(crate) fn take_string<'a, S: TokenSource<'a, HoaKind>>(
    alloc: Global,
    source: &mut S,
) -> Result<ByteString, Refusal>
    ensures gives { GivesRow IsAny string_row (S.left source.old) (S.left source.new) result }
    ensures finds { Finds IsAny string_row Anything
        (S.left source.old) (S.left source.new) (S.length source.old) result }
    ensures length { S.length source.new ≡ S.length source.old }
{
    let token = take_kind(source, HoaKind::String)?;
    string_of(alloc, token.text)
}
