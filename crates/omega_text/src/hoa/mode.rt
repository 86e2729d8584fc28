ghost use Rattle.std.specs.Prelude.{◌≡◌, ◌^◌, ◌-◌, ◌<◌, length};
ghost use Rattle.omega_text.specs.hoa.Forms.{spelling};
ghost use Rattle.omega_text.specs.private.hoa.scanning.Modes.{alias_mode, bracket_kind, closed_mode};
ghost use Rattle.omega_text.specs.private.hoa.scanning.Modes.{comment_mode, dash_mode, dashes_mode};
ghost use Rattle.omega_text.specs.private.hoa.scanning.Modes.{digits_mode, first_mode, letter_kind};
ghost use Rattle.omega_text.specs.private.hoa.scanning.Modes.{mark_mode, mode_in_mark, next_mode};
ghost use Rattle.omega_text.specs.private.hoa.scanning.Modes.{quoted_mode, sign_kind, slash_mode};
ghost use Rattle.omega_text.specs.private.hoa.scanning.Modes.{slashed_mode, star_mode, whole, word_mode};

use super::kept_mode::KeptMode;
use super::kind::{HoaKind, spelling};
use crate::bytes::{is_letter, is_white, is_word_byte};

/// How far a token, or a part of a gap, has been read.
#[derive(Clone, Copy, Debug, PartialEq, Eq)]
pub(crate) enum Mode {
    /// Nothing of it.
    Start,
    /// A word, which is a token of this kind if it ends here.
    Word(HoaKind),
    /// `@`.
    At,
    /// `@` and the beginning of a name.
    Alias,
    /// Digits.
    Digits,
    /// A string without its second quote.
    Quoted,
    /// The same, with a backslash as its last byte, which takes the next byte with it.
    Escaped,
    /// `/`, which begins a comment.
    Slash,
    /// A comment without its end, inside as many others as the number says.
    Comment(usize),
    /// The same, with `*` as its last byte, which may end the innermost comment.
    Star(usize),
    /// The same, with `/` as its last byte, which may begin a comment.
    Slashed(usize),
    /// `-`.
    Dash,
    /// `--`.
    Dashes,
    /// As many bytes of a mark as the number says.
    Mark(HoaKind, usize),
    /// A whole token of this kind, which no byte can make longer.
    Whole(HoaKind),
    /// A white byte or a whole comment.
    Blank,
}

impl Mode {
    ghost use Rattle.omega_text.specs.private.hoa.scanning.Modes.{unit_of};

    /// Returns the unit that has been read, if it may end here: a token of a kind, or a part of a gap.
    pub(crate) fn unit(self) -> Option<Option<HoaKind>>
        ensures { result ≡ unit_of self }
    {
        match self {
            Mode::Word(kind) | Mode::Whole(kind) => Some(Some(kind)),
            Mode::Alias => Some(Some(HoaKind::AliasName)),
            Mode::Digits => Some(Some(HoaKind::Int)),
            Mode::Blank => Some(None),
            _ => None,
        }
    }
}

/// Returns the mode after `byte` at the start of a unit.
#[inline(always)]
pub(super) fn first_mode(byte: u8) -> Option<KeptMode>
    ensures { result ≡ first_mode byte }
{
    if is_white(byte) {
        Some(KeptMode::new(Mode::Blank))
    } else if is_letter(byte) {
        Some(KeptMode::new(Mode::Word(letter_kind(byte))))
    } else if byte.is_ascii_digit() {
        Some(KeptMode::new(Mode::Digits))
    } else {
        mark_mode(byte)
    }
}

/// Returns the kind of the word of the one letter `byte`.
#[inline(always)]
pub(crate) fn letter_kind(byte: u8) -> HoaKind
    ensures { result ≡ letter_kind byte }
{
    if byte == b't' {
        HoaKind::True
    } else if byte == b'f' {
        HoaKind::False
    } else {
        HoaKind::Identifier
    }
}

/// Returns the mode after `byte` at the start of a unit, if it is neither white, a letter nor a digit.
#[inline(always)]
fn mark_mode(byte: u8) -> Option<KeptMode>
    ensures { result ≡ mark_mode byte }
{
    if byte == b'"' {
        Some(KeptMode::new(Mode::Quoted))
    } else if byte == b'@' {
        Some(KeptMode::new(Mode::At))
    } else if byte == b'-' {
        Some(KeptMode::new(Mode::Dash))
    } else if byte == b'/' {
        Some(KeptMode::new(Mode::Slash))
    } else {
        sign_mode(byte)
    }
}

#[inline(always)]
fn sign_mode(byte: u8) -> Option<KeptMode>
    ensures { result ≡ whole (sign_kind byte) }
{
    match sign_kind(byte) {
        Some(kind) => Some(KeptMode::new(Mode::Whole(kind))),
        None => None,
    }
}

/// Returns the kind of the sign `byte`.
#[inline(always)]
pub(crate) fn sign_kind(byte: u8) -> Option<HoaKind>
    ensures { result ≡ sign_kind byte }
{
    if byte == b'!' {
        Some(HoaKind::Not)
    } else if byte == b'&' {
        Some(HoaKind::And)
    } else if byte == b'|' {
        Some(HoaKind::Or)
    } else {
        bracket_kind(byte)
    }
}

#[inline(always)]
fn bracket_kind(byte: u8) -> Option<HoaKind>
    ensures { result ≡ bracket_kind byte }
{
    if byte == b'(' {
        Some(HoaKind::OpenParenthesis)
    } else if byte == b')' {
        Some(HoaKind::CloseParenthesis)
    } else if byte == b'[' {
        Some(HoaKind::OpenBracket)
    } else if byte == b']' {
        Some(HoaKind::CloseBracket)
    } else if byte == b'{' {
        Some(HoaKind::OpenBrace)
    } else if byte == b'}' {
        Some(HoaKind::CloseBrace)
    } else {
        None
    }
}

/// Returns the mode after `byte` in a word.
#[inline(always)]
pub(super) fn word_mode(byte: u8) -> Option<KeptMode>
    ensures { result ≡ word_mode byte }
{
    if is_word_byte(byte) {
        Some(KeptMode::new(Mode::Word(HoaKind::Identifier)))
    } else if byte == b':' {
        Some(KeptMode::new(Mode::Whole(HoaKind::HeaderName)))
    } else {
        None
    }
}

/// Returns the mode after `byte` in an alias name: after `@`, or after the beginning of the name that follows it.
#[inline(always)]
pub(super) fn alias_mode(byte: u8) -> Option<KeptMode>
    ensures { result ≡ alias_mode byte }
{
    if is_word_byte(byte) {
        Some(KeptMode::new(Mode::Alias))
    } else {
        None
    }
}

/// Returns the mode after digits and `byte`.
#[inline(always)]
pub(super) fn digits_mode(byte: u8) -> Option<KeptMode>
    ensures { result ≡ digits_mode byte }
{
    if byte.is_ascii_digit() {
        Some(KeptMode::new(Mode::Digits))
    } else {
        None
    }
}

/// Returns the mode after `byte` between the quotes of a string.
#[inline(always)]
pub(super) fn quoted_mode(byte: u8) -> KeptMode
    ensures { result ≡ quoted_mode byte }
{
    if byte == b'"' {
        KeptMode::new(Mode::Whole(HoaKind::String))
    } else if byte == b'\\' {
        KeptMode::new(Mode::Escaped)
    } else {
        KeptMode::new(Mode::Quoted)
    }
}

/// Returns the mode after `/` and `byte`.
pub(super) fn slash_mode(byte: u8) -> Option<KeptMode>
    ensures { result ≡ slash_mode byte }
{
    if byte == b'*' {
        Some(KeptMode::new(Mode::Comment(0)))
    } else {
        None
    }
}

/// Returns the mode after `byte` in a comment inside `around` others.
pub(super) fn comment_mode(around: usize, byte: u8) -> KeptMode
    ensures { result ≡ comment_mode around byte }
{
    if byte == b'*' {
        KeptMode::new(Mode::Star(around))
    } else if byte == b'/' {
        KeptMode::new(Mode::Slashed(around))
    } else {
        KeptMode::new(Mode::Comment(around))
    }
}

/// Returns the mode after `*` and `byte`, in a comment inside `around` others.
pub(super) fn star_mode(around: usize, byte: u8) -> KeptMode
    ensures { result ≡ star_mode around byte }
{
    if byte == b'/' {
        closed_mode(around)
    } else if byte == b'*' {
        KeptMode::new(Mode::Star(around))
    } else {
        KeptMode::new(Mode::Comment(around))
    }
}

/// Returns the mode after the end of a comment inside `around` others.
fn closed_mode(around: usize) -> KeptMode
    ensures { result ≡ closed_mode around }
{
    if around == 0 {
        KeptMode::new(Mode::Blank)
    } else {
        KeptMode::new(Mode::Comment(around - 1))
    }
}

/// Returns the mode after `/` and `byte`, in a comment inside `around` others.
pub(super) fn slashed_mode(around: usize, byte: u8) -> KeptMode
    requires { around < 2 ^ 64 - 1 }
    ensures { result ≡ slashed_mode around byte }
{
    if byte == b'*' {
        KeptMode::new(Mode::Comment(around + 1))
    } else if byte == b'/' {
        KeptMode::new(Mode::Slashed(around))
    } else {
        KeptMode::new(Mode::Comment(around))
    }
}

/// Returns the mode after `-` and `byte`.
pub(super) fn dash_mode(byte: u8) -> Option<KeptMode>
    ensures { result ≡ dash_mode byte }
{
    if byte == b'-' {
        Some(KeptMode::new(Mode::Dashes))
    } else {
        None
    }
}

/// Returns the mode after `--` and `byte`.
pub(super) fn dashes_mode(byte: u8) -> Option<KeptMode>
    ensures { result ≡ dashes_mode byte }
{
    if byte == b'B' {
        Some(KeptMode::new(Mode::Mark(HoaKind::Body, 3)))
    } else if byte == b'E' {
        Some(KeptMode::new(Mode::Mark(HoaKind::End, 3)))
    } else if byte == b'A' {
        Some(KeptMode::new(Mode::Mark(HoaKind::Abort, 3)))
    } else {
        None
    }
}

/// Returns the mode after the first `count` bytes of the mark `kind` and `byte`.
pub(super) fn mark_byte_mode(kind: HoaKind, count: usize, byte: u8) -> Option<KeptMode>
    requires { count < length (spelling kind) }
    ensures { result ≡ next_mode (Mode.Mark kind count) byte }
{
    let text = spelling(kind);
    if byte == text[count] {
        Some(mode_in_mark_of(kind, count + 1))
    } else {
        None
    }
}

/// Returns the mode after the first `count` bytes of the mark `kind`.
fn mode_in_mark_of(kind: HoaKind, count: usize) -> KeptMode
    ensures { result ≡ mode_in_mark kind count }
{
    if count == spelling(kind).len() {
        KeptMode::new(Mode::Whole(kind))
    } else {
        KeptMode::new(Mode::Mark(kind, count))
    }
}
