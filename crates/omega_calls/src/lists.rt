//! Lists in texts.
use omega_text::{PgKind, Refusal, pg_tokens, write_number};
use std::alloc::Global;

/// Returns the numbers of a text, whatever stands between them.
pub(crate) fn numbers(alloc: Global, text: &[u8]) -> Result<Vec<u32>, Refusal> {
    let tokens = pg_tokens(alloc, text)?;
    let mut numbers = Vec::new(alloc);
    for token in &tokens {
        if token.kind == PgKind::Number {
            numbers.push(token.value)?;
        }
    }
    Ok(numbers)
}

/// Returns the only number of a text.
pub(crate) fn only_number(alloc: Global, text: &[u8]) -> Result<u32, Refusal> {
    let numbers = numbers(alloc, text)?;
    match numbers.as_slice() {
        [number] => Ok(*number),
        _ => Err(Refusal::Io),
    }
}

/// Returns the numbers that a list begins with, after their count, and the numbers after them.
pub(crate) fn counted_and_rest(numbers: &[u32]) -> (&[u32], &[u32]) {
    match numbers.split_first() {
        Some((count, others)) => others.split_at(others.len().min(*count as usize)),
        None => (numbers, numbers),
    }
}

/// Puts a number, with a space after it.
pub(crate) fn put(out: &mut Vec<u8>, number: u128) -> Result<(), Refusal> {
    write_number(number, out)?;
    out.push(b' ')?;
    Ok(())
}

/// Puts numbers, each with a space after it.
pub(crate) fn put_each(out: &mut Vec<u8>, numbers: &[u128]) -> Result<(), Refusal> {
    for number in numbers {
        put(out, *number)?;
    }
    Ok(())
}

/// Puts numbers, each with a space after it, and `;`.
pub(crate) fn put_all(out: &mut Vec<u8>, numbers: &[u32]) -> Result<(), Refusal> {
    for number in numbers {
        put(out, u128::from(*number))?;
    }
    out.push(b';')?;
    Ok(())
}

/// Puts whether something holds.
pub(crate) fn put_answer(out: &mut Vec<u8>, holds: bool) -> Result<(), Refusal> {
    out.push(if holds { b'+' } else { b'-' })?;
    Ok(())
}

/// Returns whether something holds.
pub(crate) fn answer(alloc: Global, holds: bool) -> Result<Vec<u8>, Refusal> {
    let mut out = Vec::new(alloc);
    put_answer(&mut out, holds)?;
    Ok(out)
}

/// Returns numbers, each with a space after it.
pub(crate) fn each(alloc: Global, numbers: &[u128]) -> Result<Vec<u8>, Refusal> {
    let mut out = Vec::new(alloc);
    put_each(&mut out, numbers)?;
    Ok(out)
}

/// Returns numbers, each with a space after it, and `;`.
pub(crate) fn all(alloc: Global, numbers: &[u32]) -> Result<Vec<u8>, Refusal> {
    let mut out = Vec::new(alloc);
    put_all(&mut out, numbers)?;
    Ok(out)
}

/// Whether a text is `<` alone, as it was before a refused request.
pub(crate) fn is_front(text: &[u8]) -> bool {
    text == b"<".as_slice()
}
