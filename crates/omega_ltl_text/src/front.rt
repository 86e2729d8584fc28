//! The token at the front of bytes.

ghost use Rattle.std.specs.Prelude.{◌≡◌, ◌==◌, ◌&&◌, ◌+◌, ◌^◌, ◌<◌, false, not, option_map, IfSome};
ghost use Rattle.omega_ltl_text.specs.Tokens.{front_operator, front_quoted, front_sign, front_token};
ghost use Rattle.omega_ltl_text.specs.Tokens.{front_word};
ghost use Rattle.omega_ltl_text.specs.Tokens.{quoted_count, sign_in};
ghost use Rattle.omega_ltl_text.specs.private.Fronts.{front_of};

use crate::bytes::{byte_at, first_bytes, is_digit, is_letter, word_count};
use crate::kind::FormulaKind;
use crate::spelling::{inner_sign, letter_operator, outer_sign, word_kind};

/// A token at the front of bytes.
#[derive(Clone, Copy)]
pub(crate) struct Front {
    pub(crate) kind: FormulaKind,
    /// The number of its bytes.
    pub(crate) count: usize,
}

/// Returns the token at the front of `bytes`, if there is one: the longest word or sign, or a name in quotes.
pub(crate) fn front_token(bytes: &[u8]) -> Option<Front>
    ensures { option_map front_of result ≡ front_token bytes.now }
{
    let first = byte_at(bytes, 0);
    if is_letter(first) {
        match front_operator(bytes) {
            Some(front) => Some(front),
            None => Some(front_word(bytes)),
        }
    } else if first == b'"' {
        front_quoted(bytes)
    } else {
        front_sign(bytes)
    }
}

/// Returns the operator `F`, `G` or `X` at the front, if no digit follows, or the constant `FALSE`.
fn front_operator(bytes: &[u8]) -> Option<Front>
    ensures { option_map front_of result ≡ front_operator bytes.now }
{
    if is_digit(byte_at(bytes, 1)) {
        return None;
    }
    match letter_operator(byte_at(bytes, 0)) {
        None => None,
        Some(operator) => {
            if first_bytes(bytes, 5).eq_ignore_ascii_case(b"false") {
                Some(Front {
                    kind: FormulaKind::Constant(false),
                    count: 5,
                })
            } else {
                Some(Front {
                    kind: FormulaKind::Unary(operator),
                    count: 1,
                })
            }
        }
    }
}

/// Returns the word at the front.
fn front_word(bytes: &[u8]) -> Front
    ensures { front_of result ≡ front_word bytes.now }
{
    let count = word_count(bytes);
    Front {
        kind: word_kind(first_bytes(bytes, count)),
        count,
    }
}

/// Returns the name in quotes at the front, if a quote closes it.
fn front_quoted(bytes: &[u8]) -> Option<Front>
    ensures { option_map front_of result ≡ front_quoted bytes.now }
{
    let inside = if bytes.is_empty() { bytes } else { &bytes[1..] };
    match quoted_count(inside) {
        Some(count) => Some(Front {
            kind: FormulaKind::QuotedName,
            count: count + 1,
        }),
        None => None,
    }
}

/// Returns the number of bytes up to the quote that closes, and with it, if there is one.
fn quoted_count(bytes: &[u8]) -> Option<usize>
    ensures count { result ≡ quoted_count false bytes.now }
    ensures small { IfSome result (λ count. count + 1 < 2 ^ 64) }
{
    let mut escaped = false;
    for (index, byte) in bytes.iter().enumerate() {
        let closes = is_sign(escaped, *byte, b'"');
        if closes {
            return Some(index + 1);
        }
        let next = is_sign(escaped, *byte, b'\\');
        escaped = next;
    }
    None
}

/// Whether `byte` is `sign`, and no backslash is before it.
fn is_sign(escaped: bool, byte: u8, sign: u8) -> bool
    ensures { result ≡ (not escaped && byte == sign) }
{
    !escaped && byte == sign
}

/// Returns the longest sign at the front, if there is one.
fn front_sign(bytes: &[u8]) -> Option<Front>
    ensures { option_map front_of result ≡ front_sign bytes.now }
{
    match sign_in(first_bytes(bytes, 3)) {
        Some(front) => Some(front),
        None => match sign_in(first_bytes(bytes, 2)) {
            Some(front) => Some(front),
            None => sign_in(first_bytes(bytes, 1)),
        },
    }
}

/// Returns the sign that `text` is, if it is one.
fn sign_in(text: &[u8]) -> Option<Front>
    ensures { option_map front_of result ≡ sign_in text.now }
{
    let count = text.len();
    match outer_sign(text) {
        Some(kind) => Some(Front { kind, count }),
        None => match inner_sign(text) {
            Some(kind) => Some(Front { kind, count }),
            None => None,
        },
    }
}
