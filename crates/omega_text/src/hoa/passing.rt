//! Reads bytes that settle neither a mark nor a fault all at once.

ghost use Rattle.std.specs.Prelude.{◌≡◌, ◌+◌, ◌-◌, ◌<◌, ◌≤◌, ◌^◌, ◌∷◌, ◌↔◌, [], length};
ghost use Rattle.std.specs.Prelude.{slice_index, take, true, IfNone, IfSome, IsTrue};
ghost use Rattle.omega_text.specs.Bytes.{is_digit, is_letter};
ghost use Rattle.omega_text.specs.hoa.Pieces.{IsNoneMark, IsPlain};
ghost use Rattle.omega_text.specs.private.hoa.scanning.Passing.{EndsWord, IsCourse, IsOnWayFor, IsSimple};
ghost use Rattle.omega_text.specs.private.hoa.scanning.Passing.{IsSingle, IsStop, Passes, PassesAs};
ghost use Rattle.omega_text.specs.private.hoa.scanning.Reading.{IsOnWay};
ghost use Rattle.omega_text.specs.private.hoa.scanning.Unfinished.{fresh};
ghost use Rattle.omega_text.specs.declared.hoa.passing.Simple.TheVariants.{Begun};

use super::kept_mode::KeptMode;
use super::kind::{HoaKind, spelling};
use super::lead::{Lead, lead_of};
use super::mark::front_mark;
use super::mode::{Mode, letter_kind};
use super::pending::Pending;
use super::placed::{PlacedToken, Settled};
use super::quoted::quoted_count;
use super::tokenizer::read_byte;
use crate::bytes::{tail, word_count};
use crate::digits::{few_digits, has_needless_zero};

/// Extends `pending` by `bytes` from `from` on, up to one that settles a mark or a fault. Returns the unit being read,
/// and the place of that byte, or the end. `start` is the place of the first of these bytes in the whole text.
pub(super) fn pass_bytes(
    pending: Pending,
    start: usize,
    bytes: &[u8],
    from: usize,
) -> (Pending, usize)
    requires within { from ≤ length bytes.now }
    requires way { IsOnWayFor (length bytes.now - from) pending start }
    ensures passes { Passes start bytes.now from result.1 pending result.0 }
    ensures stops { result.1 < length bytes.now
        → IsStop (start + (result.1 - from)) (slice_index bytes.now result.1) result.0 }
{
    let mut reached = pending;
    let mut place = from;
    while place < bytes.len() {
        let (begun, end) = pass_plain(reached, start + (place - from), bytes, place);
        if end == bytes.len() {
            return (begun, end);
        }
        match pass_byte(&begun, start + (end - from), bytes[end]) {
            None => return (begun, end),
            Some(after) => {
                reached = after;
                place = end + 1;
            }
        }
    }
    (reached, place)
}

/// Extends `pending` by `byte`, or begins a unit with it. Returns none if the byte settles a mark or a fault.
#[inline(always)]
fn pass_byte(pending: &Pending, place: usize, byte: u8) -> Option<Pending>
    requires { IsOnWay pending.now place }
    ensures passes { IfSome result (λ after. PassesAs place (byte ∷ []) pending.now after) }
    ensures stops { IfNone result (IsStop place byte pending.now) }
{
    match pending.mode.next(byte) {
        None => pass_settling(pending, place, byte),
        Some(next) => match course_of(next) {
            Course::GoesOn => Some(Pending {
                mode: next,
                start: pending.start,
                value: 0,
            }),
            Course::Ends => Some(Pending::new(place + 1)),
            Course::Other => pass_settling(pending, place, byte),
        },
    }
}

/// How a unit goes on with one byte more.
#[derive(Clone, Copy, Debug, PartialEq, Eq)]
enum Course {
    /// It is not whole yet, and has no value.
    GoesOn,
    /// It is whole, and no mark.
    Ends,
    /// It is a mark, or digits.
    Other,
}

#[inline(always)]
fn course_of(next: KeptMode) -> Course
    ensures { IsCourse next result }
{
    match next.get() {
        Mode::Start | Mode::Digits => Course::Other,
        Mode::Blank => Course::Ends,
        Mode::Whole(kind) => match kind {
            HoaKind::Body | HoaKind::End | HoaKind::Abort => Course::Other,
            _ => Course::Ends,
        },
        _ => Course::GoesOn,
    }
}

/// Does what `pass_byte` does, for any byte.
fn pass_settling(pending: &Pending, place: usize, byte: u8) -> Option<Pending>
    requires { IsOnWay pending.now place }
    ensures passes { IfSome result (λ after. PassesAs place (byte ∷ []) pending.now after) }
    ensures stops { IfNone result (IsStop place byte pending.now) }
{
    let (after, settled) = read_byte(*pending, place, byte);
    if is_plain(settled) { Some(after) } else { None }
}

/// Whether `settled` has neither a mark nor a fault.
#[inline(always)]
fn is_plain(settled: Settled) -> bool
    ensures { IsTrue result ↔ IsPlain settled }
{
    match settled.fault {
        Some(_) => false,
        None => is_no_mark(settled.first) && is_no_mark(settled.second),
    }
}

#[inline(always)]
fn is_no_mark(settled: Option<PlacedToken>) -> bool
    ensures { IsTrue result ↔ IsNoneMark settled }
{
    match settled {
        None => true,
        Some(token) => match token.kind {
            HoaKind::Body | HoaKind::End | HoaKind::Abort => false,
            _ => true,
        },
    }
}

/// Passes the units that a first byte and a run of bytes after it determine, if no unit has been begun.
#[inline(always)]
fn pass_plain(pending: Pending, start: usize, bytes: &[u8], from: usize) -> (Pending, usize)
    requires within { from ≤ length bytes.now }
    requires way { IsOnWayFor (length bytes.now - from) pending start }
    ensures { Passes start bytes.now from result.1 pending result.0 }
{
    match pending.mode.get() {
        Mode::Start => pass_simple(start, bytes, from),
        _ => (pending, from),
    }
}

/// Passes white bytes, signs, words, numbers, strings and alias names as long as each is ended, and begins the unit
/// that is not.
#[inline(always)]
fn pass_simple(start: usize, bytes: &[u8], from: usize) -> (Pending, usize)
    requires within { from ≤ length bytes.now }
    requires room { start + (length bytes.now - from) < 2 ^ 64 }
    ensures { Passes start bytes.now from result.1 (fresh start) result.0 }
{
    let mut place = from;
    while place < bytes.len() {
        match simple_unit(bytes, place, start + (place - from)) {
            Simple::Ended { place: end } => place = end,
            Simple::Begun {
                pending,
                place: end,
            } => return (pending, end),
        }
    }
    (Pending::new(start + (place - from)), place)
}

/// How far a unit was read that is determined by its first byte and a run of bytes after it.
#[derive(Clone, Copy, Debug, PartialEq, Eq)]
enum Simple {
    /// It is whole, and so is the unit that the byte after it is, if that byte was needed to end it.
    Ended { place: usize },
    /// It is not, or has not been begun.
    Begun { pending: Pending, place: usize },
}

/// Reads the unit that begins at `place`.
#[inline(always)]
fn simple_unit(bytes: &[u8], place: usize, start: usize) -> Simple
    requires { place < length bytes.now }
    ensures { IsSimple start bytes.now place result }
{
    let byte = bytes[place];
    if is_single(byte) {
        return Simple::Ended { place: place + 1 };
    }
    match lead_of(byte) {
        Lead::Digit => pass_digits(bytes, place, start),
        Lead::Letter => pass_word(bytes, place, start),
        Lead::Quote => pass_string(bytes, place, start),
        Lead::At => pass_alias(bytes, place, start),
        _ => pass_mark(bytes, place, start),
    }
}

/// Whether `byte` is a unit of its own and no mark: white, or a sign.
#[inline(always)]
fn is_single(byte: u8) -> bool
    ensures { IsTrue result → IsSingle byte }
{
    match lead_of(byte) {
        Lead::White => true,
        Lead::Sign(_) => true,
        _ => false,
    }
}

#[inline(always)]
fn pass_word(bytes: &[u8], place: usize, start: usize) -> Simple
    requires within { place < length bytes.now }
    requires letter { is_letter (slice_index bytes.now place) ≡ true }
    ensures { IsSimple start bytes.now place result }
{
    let rest = tail(bytes, place);
    let count = word_count(rest);
    let end = place + count;
    if end < bytes.len() && ends_word(bytes[end]) {
        return Simple::Ended { place: end + 1 };
    }
    let kind = if count == 1 {
        letter_kind(rest[0])
    } else {
        HoaKind::Identifier
    };
    Simple::Begun {
        pending: Pending {
            mode: KeptMode::new(Mode::Word(kind)),
            start,
            value: 0,
        },
        place: end,
    }
}

/// Whether `byte` ends a word, as a colon or a unit of its own.
#[inline(always)]
fn ends_word(byte: u8) -> bool
    ensures { IsTrue result → EndsWord byte }
{
    byte == b':' || is_single(byte)
}

#[inline(always)]
fn pass_digits(bytes: &[u8], place: usize, start: usize) -> Simple
    requires within { place < length bytes.now }
    requires digit { is_digit (slice_index bytes.now place) ≡ true }
    ensures { IsSimple start bytes.now place result }
{
    let next = place + 1;
    if next < bytes.len() && is_single(bytes[next]) {
        // Most numbers have one digit.
        return Simple::Ended { place: next + 1 };
    }
    let rest = tail(bytes, place);
    if let Some((count, _)) = few_digits(rest) {
        let end = place + count;
        if !has_needless_zero(rest, count) && is_single(bytes[end]) {
            return Simple::Ended { place: end + 1 };
        }
    }
    not_begun(place, start)
}

/// Leaves the unit at `place` unbegun, so that it is read byte by byte.
#[inline(always)]
fn not_begun(place: usize, start: usize) -> Simple
    ensures { result ≡ Begun (fresh start) place }
{
    Simple::Begun {
        pending: Pending::new(start),
        place,
    }
}

#[inline(always)]
fn pass_string(bytes: &[u8], place: usize, start: usize) -> Simple
    requires within { place < length bytes.now }
    requires quote { slice_index bytes.now place ≡ 34 }
    ensures { IsSimple start bytes.now place result }
{
    let inside = place + 1;
    let end = inside + quoted_count(tail(bytes, inside));
    if end < bytes.len() && bytes[end] == b'"' {
        return Simple::Ended { place: end + 1 };
    }
    Simple::Begun {
        pending: Pending {
            mode: KeptMode::new(Mode::Quoted),
            start,
            value: 0,
        },
        place: end,
    }
}

#[inline(always)]
fn pass_alias(bytes: &[u8], place: usize, start: usize) -> Simple
    requires within { place < length bytes.now }
    requires at { slice_index bytes.now place ≡ 64 }
    ensures { IsSimple start bytes.now place result }
{
    let inside = place + 1;
    let count = word_count(tail(bytes, inside));
    let end = inside + count;
    if count > 0 && end < bytes.len() && is_single(bytes[end]) {
        return Simple::Ended { place: end + 1 };
    }
    not_begun(place, start)
}

/// Passes a mark up to before its last byte, which settles it.
#[inline(always)]
fn pass_mark(bytes: &[u8], place: usize, start: usize) -> Simple
    requires { place < length bytes.now }
    ensures { IsSimple start bytes.now place result }
{
    let Some(kind) = front_mark(tail(bytes, place)) else {
        return not_begun(place, start);
    };
    let count = spelling(kind).len() - 1;
    Simple::Begun {
        pending: Pending {
            mode: KeptMode::new(Mode::Mark(kind, count)),
            start,
            value: 0,
        },
        place: place + count,
    }
}
