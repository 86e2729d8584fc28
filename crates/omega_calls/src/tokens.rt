//! Numbers, tokens, strings and lists.
use crate::kinds::{put_hoa, put_pg};
use crate::lists::{all, is_front, numbers, only_number, put, put_all, put_answer};
use omega_text::{
    ByteString, Numbers, PgKind, Refusal, Seq, TextFault, Token, hoa_tokens, next_pg_number,
    next_pg_token, pg_tokens, write_number,
};
use std::alloc::Global;

/// Returns what the call on tokens, numbers, strings or lists of this name gives of the two texts.
pub(crate) fn answer_call(
    alloc: Global,
    call: &str,
    text: &[u8],
    other: &[u8],
) -> Result<Vec<u8>, Refusal> {
    match call {
        "write_number" => number(alloc, value_of(text)),
        "Seq" => lists(alloc, text, other),
        "next_pg_token" | "next_pg_number" => token_at(alloc, call, text, other),
        "pg_tokens" => pg_places(alloc, text),
        "hoa_tokens" => hoa_places(alloc, text),
        "ByteString" => strings(alloc, text, other),
        _ => short_list(alloc),
    }
}

/// Returns the number of decimal digits, which may have as many as the greatest.
fn value_of(digits: &[u8]) -> u128 {
    let mut value = 0u128;
    for digit in digits {
        value = value
            .wrapping_mul(10)
            .wrapping_add(u128::from(digit.wrapping_sub(b'0')));
    }
    value
}

/// Returns a number after `<`. A refused request leaves `<` alone, and the number is written once more.
fn number(alloc: Global, value: u128) -> Result<Vec<u8>, Refusal> {
    let mut out = Vec::from_slice(alloc, b"<")?;
    put_again(value, &mut out)?;
    Ok(out)
}

fn put_again(value: u128, out: &mut Vec<u8>) -> Result<(), Refusal> {
    match write_number(value, out) {
        Ok(()) => Ok(()),
        Err(_) if !is_front(out.as_slice()) => Err(Refusal::Io),
        Err(_) => write_number(value, out),
    }
}

fn pg_places(alloc: Global, text: &[u8]) -> Result<Vec<u8>, Refusal> {
    let tokens = pg_tokens(alloc, text)?;
    let mut out = Vec::new(alloc);
    for token in &tokens {
        put_pg(&mut out, token)?;
    }
    Ok(out)
}

fn hoa_places(alloc: Global, text: &[u8]) -> Result<Vec<u8>, Refusal> {
    let tokens = hoa_tokens(alloc, text)?;
    let mut out = Vec::new(alloc);
    for token in &tokens {
        put_hoa(&mut out, token)?;
    }
    Ok(out)
}

/// Returns what a call gives from the place of a text on that is the only number of another, if it gives a token.
fn token_at(alloc: Global, call: &str, text: &[u8], other: &[u8]) -> Result<Vec<u8>, Refusal> {
    let at = only_number(alloc, other)? as usize;
    if at > text.len() {
        return Err(Refusal::Io);
    }
    let found = match call {
        "next_pg_token" => next_pg_token(text, at),
        _ => Ok(next_pg_number(text, at)),
    };
    found_written(alloc, found)
}

fn found_written(
    alloc: Global,
    found: Result<Option<Token<'_, PgKind>>, TextFault>,
) -> Result<Vec<u8>, Refusal> {
    let mut out = Vec::new(alloc);
    match found {
        Ok(Some(token)) => put_pg(&mut out, &token)?,
        Ok(None) => {}
        Err(fault) => return Err(Refusal::Text(fault)),
    }
    Ok(out)
}

/// Returns the bytes of a text as a string keeps them, how many they are, and whether the string is that of another
/// text, and the one of no bytes.
fn strings(alloc: Global, text: &[u8], other: &[u8]) -> Result<Vec<u8>, Refusal> {
    let string = ByteString::from_slice(alloc, text)?;
    let other = ByteString::from_slice(alloc, other)?;
    string_beside(alloc, &string, &other)
}

fn string_beside(
    alloc: Global,
    string: &ByteString,
    other: &ByteString,
) -> Result<Vec<u8>, Refusal> {
    let mut out = Vec::from_slice(alloc, string.as_slice())?;
    out.push(b' ')?;
    put(&mut out, string.len() as u128)?;
    put_answer(&mut out, *string == *other)?;
    put_answer(&mut out, *string == ByteString::new())?;
    Ok(out)
}

/// Returns whether the lists of the numbers of two texts are equal, how many the first has, and these.
fn lists(alloc: Global, text: &[u8], other: &[u8]) -> Result<Vec<u8>, Refusal> {
    let mut out = Vec::new(alloc);
    put_list(alloc, text, other, &mut out)?;
    let list = Seq::from_vec(numbers(alloc, text)?);
    put_all(&mut out, list.into_vec().as_slice())?;
    Ok(out)
}

fn put_list(alloc: Global, text: &[u8], other: &[u8], out: &mut Vec<u8>) -> Result<(), Refusal> {
    let list = Seq::from_vec(numbers(alloc, text)?);
    let other = Seq::from_vec(numbers(alloc, other)?);
    put_answer(out, list == other)?;
    put(out, list.len() as u128)?;
    put_all(out, list.as_slice())
}

/// Returns some numbers from a list, and as many one by one. A refused request leaves the list as it was.
fn short_list(alloc: Global) -> Result<Vec<u8>, Refusal> {
    let mut list = Numbers::from_slice(alloc, &[3, 1, 4, 1, 5])?;
    match push_more(alloc, &mut list) {
        Ok(()) => all(alloc, list.as_slice()),
        Err(refusal) => Err(refusal),
    }
}

fn push_more(alloc: Global, list: &mut Numbers) -> Result<(), Refusal> {
    for number in 0..20u32 {
        push_again(alloc, list, number)?;
    }
    Ok(())
}

fn push_again(alloc: Global, list: &mut Numbers, number: u32) -> Result<(), Refusal> {
    let count = list.len();
    match list.push(alloc, number) {
        Ok(()) => Ok(()),
        Err(_) if list.len() != count => Err(Refusal::Io),
        Err(_) => Ok(list.push(alloc, number)?),
    }
}
