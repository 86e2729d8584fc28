//! How operators, constants and parentheses are spelled.

ghost use Rattle.std.specs.Prelude.{◌≡◌};
ghost use Rattle.omega_ltl_text.specs.Tokens.{inner_sign, letter_operator, outer_sign, word_kind};

use crate::kind::FormulaKind;
use omega_ltl_formula::{BinaryOperator, UnaryOperator};

/// Returns the kind of a sign of one operand, of a parenthesis or of a digit.
pub(crate) fn outer_sign(text: &[u8]) -> Option<FormulaKind>
    ensures { result ≡ outer_sign text.now }
{
    if text == b"(".as_slice() {
        Some(FormulaKind::OpenParenthesis)
    } else if text == b")".as_slice() {
        Some(FormulaKind::CloseParenthesis)
    } else if text == b"!".as_slice() || text == b"~".as_slice() {
        Some(FormulaKind::Unary(UnaryOperator::Not))
    } else if text == b"[]".as_slice() {
        Some(FormulaKind::Unary(UnaryOperator::Globally))
    } else if text == b"<>".as_slice() {
        Some(FormulaKind::Unary(UnaryOperator::Finally))
    } else if text == b"()".as_slice() {
        Some(FormulaKind::Unary(UnaryOperator::Next))
    } else if text == b"1".as_slice() {
        Some(FormulaKind::Constant(true))
    } else if text == b"0".as_slice() {
        Some(FormulaKind::Constant(false))
    } else {
        None
    }
}

/// Returns the kind of a sign of two operands.
pub(crate) fn inner_sign(text: &[u8]) -> Option<FormulaKind>
    ensures { result ≡ inner_sign text.now }
{
    if text == b"&".as_slice() || text == b"&&".as_slice() || text == b"/\\".as_slice() {
        Some(FormulaKind::Binary(BinaryOperator::And))
    } else if text == b"|".as_slice() || text == b"||".as_slice() || text == b"\\/".as_slice() {
        Some(FormulaKind::Binary(BinaryOperator::Or))
    } else if text == b"^".as_slice() {
        Some(FormulaKind::Binary(BinaryOperator::Xor))
    } else if text == b"->".as_slice() || text == b"=>".as_slice() {
        Some(FormulaKind::Binary(BinaryOperator::Implies))
    } else if text == b"<->".as_slice() || text == b"<=>".as_slice() {
        Some(FormulaKind::Binary(BinaryOperator::Iff))
    } else {
        None
    }
}

/// Returns the kind of a word: an operator, a constant in letters of either case, or else a name.
pub(crate) fn word_kind(text: &[u8]) -> FormulaKind
    ensures { result ≡ word_kind text.now }
{
    if text == b"U".as_slice() {
        FormulaKind::Binary(BinaryOperator::Until)
    } else if text == b"R".as_slice() || text == b"V".as_slice() {
        FormulaKind::Binary(BinaryOperator::Release)
    } else if text == b"W".as_slice() {
        FormulaKind::Binary(BinaryOperator::WeakUntil)
    } else if text == b"M".as_slice() {
        FormulaKind::Binary(BinaryOperator::StrongRelease)
    } else if text == b"xor".as_slice() {
        FormulaKind::Binary(BinaryOperator::Xor)
    } else if text.eq_ignore_ascii_case(b"true") {
        FormulaKind::Constant(true)
    } else if text.eq_ignore_ascii_case(b"false") {
        FormulaKind::Constant(false)
    } else {
        FormulaKind::Name
    }
}

/// Returns the operator that the letter `byte` is, if it is one.
pub(crate) fn letter_operator(byte: u8) -> Option<UnaryOperator>
    ensures { result ≡ letter_operator byte }
{
    if byte == b'F' {
        Some(UnaryOperator::Finally)
    } else if byte == b'G' {
        Some(UnaryOperator::Globally)
    } else if byte == b'X' {
        Some(UnaryOperator::Next)
    } else {
        None
    }
}
