//! Tokens in text: a letter for the kind, the places where it begins and ends, and the value.
use crate::lists::put_each;
use omega_text::{HoaKind, PgKind, Refusal, Span, Token};

/// Writes the letter of the kind of `token`, the places of its first byte and after its last, and its value.
pub(crate) fn put_pg(out: &mut Vec<u8>, token: &Token<'_, PgKind>) -> Result<(), Refusal> {
    put_token(out, pg_letter(token.kind), token.span, token.value)
}

fn pg_letter(kind: PgKind) -> u8 {
    match kind {
        PgKind::Number => b'n',
        PgKind::Parity => b'p',
        PgKind::ParitySol => b's',
        PgKind::Semicolon => b';',
        PgKind::Comma => b',',
        PgKind::Name => b'"',
    }
}

/// Writes the letter of the kind of `token`, the places of its first byte and after its last, and its value.
pub(crate) fn put_hoa(out: &mut Vec<u8>, token: &Token<'_, HoaKind>) -> Result<(), Refusal> {
    put_token(out, hoa_letter(token.kind), token.span, token.value)
}

fn put_token(out: &mut Vec<u8>, letter: u8, span: Span, value: u32) -> Result<(), Refusal> {
    out.push(letter)?;
    put_each(
        out,
        &[span.start as u128, span.end as u128, u128::from(value)],
    )
}

fn hoa_letter(kind: HoaKind) -> u8 {
    match kind {
        HoaKind::Identifier => b'i',
        HoaKind::HeaderName => b'h',
        HoaKind::AliasName => b'@',
        HoaKind::True => b't',
        HoaKind::False => b'f',
        HoaKind::Int => b'n',
        HoaKind::String => b'"',
        HoaKind::Body => b'B',
        HoaKind::End => b'E',
        HoaKind::Abort => b'A',
        HoaKind::Not => b'!',
        HoaKind::And => b'&',
        HoaKind::Or => b'|',
        HoaKind::OpenParenthesis => b'(',
        HoaKind::CloseParenthesis => b')',
        HoaKind::OpenBracket => b'[',
        HoaKind::CloseBracket => b']',
        HoaKind::OpenBrace => b'{',
        HoaKind::CloseBrace => b'}',
    }
}
