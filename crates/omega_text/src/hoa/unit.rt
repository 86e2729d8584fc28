ghost use Rattle.std.specs.Prelude.{◌≡◌, ◌<◌, ◌≤◌, ◌^◌, length, slice_index};
ghost use Rattle.std.specs.Prelude.{true, false, Some, IfErr, IfOk, IfSome};
ghost use Rattle.omega_text.specs.hoa.Fault.{IsFaultOf};
ghost use Rattle.omega_text.specs.private.hoa.scanning.Modes.{IsFirstUnit, IsScanned};
ghost use Rattle.omega_text.specs.hoa.Forms.{spelling};
ghost use Rattle.omega_text.specs.Bytes.{is_digit};

use super::kept_mode::KeptMode;
use super::kind::{HoaKind, spelling};
use super::mark::front_mark;
use super::mode::Mode;
use super::plain::plain_unit;
use crate::bytes::is_white;
use crate::digits::{front_digits, has_needless_zero};
use crate::limits::MOST_NUMBER;
use crate::refusal::TextFault;

/// The longest unit that bytes begin with: a token, or a part of a gap, which has no kind.
#[derive(Clone, Copy, Debug, PartialEq, Eq)]
pub(crate) struct Unit {
    pub(crate) kind: Option<HoaKind>,
    pub(crate) value: u32,
    /// The number of its bytes.
    pub(crate) count: usize,
}

/// Returns the unit that `bytes` begin with, which are at `place` of the text. A fault is [TextFault::Lex] or
/// [TextFault::Number] there.
pub(crate) fn first_unit(bytes: &[u8], place: usize) -> Result<Unit, TextFault>
    requires some { 0 < length bytes.now }
    requires room { length bytes.now < 2 ^ 64 }
    ensures unit { IfOk result (λ unit. IsFirstUnit bytes.now unit.kind unit.value unit.count) }
    ensures fault { IfErr result (IsFaultOf bytes.now place) }
{
    let first = bytes[0];
    if is_white(first) {
        Ok(whole_byte(None))
    } else if let Some(unit) = plain_unit(bytes) {
        Ok(unit)
    } else if first.is_ascii_digit() {
        first_number(bytes, place)
    } else if let Some(unit) = first_mark(bytes) {
        Ok(unit)
    } else {
        other_unit(bytes, place)
    }
}

/// Makes a unit of one byte.
pub(super) fn whole_byte(kind: Option<HoaKind>) -> Unit
    ensures kind { result.kind ≡ kind }
    ensures value { result.value ≡ 0 }
    ensures count { result.count ≡ 1 }
{
    Unit {
        kind,
        value: 0,
        count: 1,
    }
}

/// Returns the number that `bytes` begin with. Their whole run of digits is one, or is refused.
#[inline(always)]
fn first_number(bytes: &[u8], place: usize) -> Result<Unit, TextFault>
    requires some { 0 < length bytes.now }
    requires digit { is_digit (slice_index bytes.now 0) ≡ true }
    ensures unit { IfOk result (λ unit. IsFirstUnit bytes.now unit.kind unit.value unit.count) }
    ensures fault { IfErr result (IsFaultOf bytes.now place) }
{
    let (count, value) = front_digits(bytes);
    if has_needless_zero(bytes, count) || value > MOST_NUMBER as u64 {
        return Err(TextFault::Number { at: place });
    }
    Ok(Unit {
        kind: Some(HoaKind::Int),
        value: value as u32,
        count,
    })
}

/// Returns the mark that `bytes` begin with.
fn first_mark(bytes: &[u8]) -> Option<Unit>
    ensures { IfSome result (λ unit. IsFirstUnit bytes.now unit.kind unit.value unit.count) }
{
    let kind = front_mark(bytes)?;
    Some(mark(kind))
}

/// Makes a unit of the mark `kind`.
fn mark(kind: HoaKind) -> Unit
    ensures kind { result.kind ≡ Some kind }
    ensures value { result.value ≡ 0 }
    ensures count { result.count ≡ length (spelling kind) }
{
    Unit {
        kind: Some(kind),
        value: 0,
        count: spelling(kind).len(),
    }
}

/// Returns any other unit, read byte by byte.
fn other_unit(bytes: &[u8], place: usize) -> Result<Unit, TextFault>
    requires some { 0 < length bytes.now }
    requires room { length bytes.now < 2 ^ 64 }
    requires no_digit { is_digit (slice_index bytes.now 0) ≡ false }
    ensures unit { IfOk result (λ unit. IsFirstUnit bytes.now unit.kind unit.value unit.count) }
    ensures fault { IfErr result (IsFaultOf bytes.now place) }
{
    let (count, mode) = scan(bytes);
    match mode.unit() {
        Some(kind) => Ok(Unit {
            kind,
            value: 0,
            count,
        }),
        None => Err(TextFault::Lex { at: place }),
    }
}

/// Returns the number of bytes at the front that can be read as one unit or as its beginning, and the mode after them.
fn scan(bytes: &[u8]) -> (usize, Mode)
    requires { length bytes.now < 2 ^ 64 }
    ensures { IsScanned bytes.now result.0 result.1 }
{
    let mut mode = KeptMode::new(Mode::Start);
    for (count, byte) in bytes.iter().enumerate() {
        match mode.next(*byte) {
            Some(next) => mode = next,
            None => return (count, mode.get()),
        }
    }
    (bytes.len(), mode.get())
}
