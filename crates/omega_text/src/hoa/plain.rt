//! Tokens that are determined by a first byte and a run of bytes after it.

ghost use Rattle.std.specs.Prelude.{◌≡◌, ◌<◌, length, slice_index, true, IfSome};
ghost use Rattle.omega_text.specs.Bytes.{is_digit, is_letter};
ghost use Rattle.omega_text.specs.private.hoa.scanning.Modes.{IsFirstUnit};

use super::kind::HoaKind;
use super::lead::{Lead, lead_of};
use super::mode::letter_kind;
use super::quoted::quoted_count;
use super::unit::{Unit, whole_byte};
use crate::bytes::{tail, word_count};
use crate::digits::{few_digits, has_needless_zero};

/// Returns the token that `bytes` begin with, if its first byte and a run of bytes after it determine it.
#[inline(always)]
pub(crate) fn plain_unit(bytes: &[u8]) -> Option<Unit>
    requires { 0 < length bytes.now }
    ensures { IfSome result (λ unit. IsFirstUnit bytes.now unit.kind unit.value unit.count) }
{
    match lead_of(bytes[0]) {
        Lead::Sign(kind) => Some(whole_byte(Some(kind))),
        Lead::Digit => plain_number(bytes),
        Lead::Letter => Some(first_word(bytes)),
        Lead::Quote => plain_string(bytes),
        Lead::At => plain_alias(bytes),
        _ => None,
    }
}

/// Returns the word that `bytes` begin with, and the colon if one follows it directly.
#[inline(always)]
fn first_word(bytes: &[u8]) -> Unit
    requires some { 0 < length bytes.now }
    requires letter { is_letter (slice_index bytes.now 0) ≡ true }
    ensures { IsFirstUnit bytes.now result.kind result.value result.count }
{
    let count = word_count(bytes);
    if count < bytes.len() && bytes[count] == b':' {
        return Unit {
            kind: Some(HoaKind::HeaderName),
            value: 0,
            count: count + 1,
        };
    }
    let kind = if count == 1 {
        letter_kind(bytes[0])
    } else {
        HoaKind::Identifier
    };
    Unit {
        kind: Some(kind),
        value: 0,
        count,
    }
}

/// Returns the number that `bytes` begin with, if it has few digits.
#[inline(always)]
fn plain_number(bytes: &[u8]) -> Option<Unit>
    requires some { 0 < length bytes.now }
    requires digit { is_digit (slice_index bytes.now 0) ≡ true }
    ensures { IfSome result (λ unit. IsFirstUnit bytes.now unit.kind unit.value unit.count) }
{
    if bytes.len() > 1 && !bytes[1].is_ascii_digit() {
        // Most numbers have one digit.
        return Some(Unit {
            kind: Some(HoaKind::Int),
            value: u32::from(bytes[0] - b'0'),
            count: 1,
        });
    }
    let (count, value) = few_digits(bytes)?;
    if has_needless_zero(bytes, count) {
        return None;
    }
    Some(Unit {
        kind: Some(HoaKind::Int),
        value: value as u32,
        count,
    })
}

/// Returns the string that `bytes` begin with, if it has no backslash.
#[inline(always)]
fn plain_string(bytes: &[u8]) -> Option<Unit>
    requires some { 0 < length bytes.now }
    requires quote { slice_index bytes.now 0 ≡ 34 }
    ensures { IfSome result (λ unit. IsFirstUnit bytes.now unit.kind unit.value unit.count) }
{
    let close = 1 + quoted_count(tail(bytes, 1));
    if close < bytes.len() && bytes[close] == b'"' {
        return Some(Unit {
            kind: Some(HoaKind::String),
            value: 0,
            count: close + 1,
        });
    }
    None
}

/// Returns the alias name that `bytes` begin with, if a byte of a word follows the `@`.
#[inline(always)]
fn plain_alias(bytes: &[u8]) -> Option<Unit>
    requires some { 0 < length bytes.now }
    requires at { slice_index bytes.now 0 ≡ 64 }
    ensures { IfSome result (λ unit. IsFirstUnit bytes.now unit.kind unit.value unit.count) }
{
    let size = word_count(tail(bytes, 1));
    if size == 0 {
        return None;
    }
    Some(Unit {
        kind: Some(HoaKind::AliasName),
        value: 0,
        count: 1 + size,
    })
}
