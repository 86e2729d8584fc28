ghost use Rattle.std.specs.Prelude.{◌≡◌, ◌<◌, ◌≤◌, ◌∷◌, ◌++◌, [], ℕ, List, true, ◌^◌, IfErr, IfOk};
ghost use Rattle.omega_text.specs.private.hoa.scanning.Unfinished.{IsFaultIn, IsGrown, IsTokenIn, fresh};
ghost use Rattle.omega_text.specs.private.hoa.scanning.Reading.{IsValueOf};
ghost use Rattle.omega_text.specs.Bytes.{is_digit};
ghost use Rattle.omega_text.specs.Forms.{IsDigits};
ghost use Rattle.omega_text.specs.Limits.{most_number};

use super::kept_mode::KeptMode;
use super::kind::HoaKind;
use super::mode::Mode;
use super::placed::PlacedToken;
use crate::limits::MOST_NUMBER;
use crate::refusal::TextFault;
use crate::token::Span;

/// The value of digits that are no number, which is above every number.
pub(super) const NO_NUMBER: u64 = MOST_NUMBER as u64 + 1;

/// The unit that is being read: how far, its beginning, and the value of its digits.
#[derive(Clone, Copy, Debug, PartialEq, Eq)]
pub(crate) struct Pending {
    pub(crate) mode: KeptMode,
    pub(crate) start: usize,
    pub(crate) value: u64,
}

impl Pending {
    /// Makes an empty unit that begins at `start`.
    #[inline(always)]
    pub(crate) fn new(start: usize) -> Pending
        ensures { result ≡ fresh start }
    {
        Pending {
            mode: KeptMode::new(Mode::Start),
            start,
            value: 0,
        }
    }

    /// Extends the unit to `next` by `byte`, which ends at `end`. Also returns the token that is whole then.
    #[inline(always)]
    pub(crate) fn grow(self, next: KeptMode, byte: u8, end: usize) -> (Pending, Option<PlacedToken>)
        requires { self.start < end }
        ensures { IsGrown self byte end next result.0 result.1 }
    {
        let start = self.start;
        match next.get() {
            Mode::Whole(kind) => {
                let token = placed_token(kind, 0, start, end);
                (Pending::new(end), Some(token))
            }
            Mode::Blank => (Pending::new(end), None),
            Mode::Digits => {
                let value = if end - start == 1 {
                    first_value(byte)
                } else {
                    more_value(self.value, byte)
                };
                let pending = Pending {
                    mode: next,
                    start,
                    value,
                };
                (pending, None)
            }
            _ => {
                let pending = Pending {
                    mode: next,
                    start,
                    value: 0,
                };
                (pending, None)
            }
        }
    }

    /// Returns the token that the unit is if it ends at `end`. If it is no token, returns [TextFault::Lex] or
    /// [TextFault::Number] at its beginning.
    #[inline(always)]
    pub(crate) fn judge(self, end: usize) -> Result<PlacedToken, TextFault>
        ensures token { IfOk result (IsTokenIn self.mode self.value self.start end) }
        ensures fault { IfErr result (IsFaultIn self.mode self.value self.start) }
    {
        match self.mode.get() {
            Mode::Word(kind) => Ok(placed_token(kind, 0, self.start, end)),
            Mode::Alias => Ok(placed_token(HoaKind::AliasName, 0, self.start, end)),
            Mode::Digits => {
                if self.value > MOST_NUMBER as u64 {
                    return Err(TextFault::Number { at: self.start });
                }
                Ok(placed_token(HoaKind::Int, self.value as u32, self.start, end))
            }
            _ => Err(TextFault::Lex { at: self.start }),
        }
    }
}

#[inline(always)]
fn placed_token(kind: HoaKind, value: u32, start: usize, end: usize) -> PlacedToken
    ensures kind { result.kind ≡ kind }
    ensures value { result.value ≡ value }
    ensures start { result.span.start ≡ start }
    ensures end { result.span.end ≡ end }
{
    PlacedToken {
        kind,
        value,
        span: Span { start, end },
    }
}

/// Returns the value of the digit `byte`.
#[inline(always)]
fn first_value(byte: u8) -> u64
    ensures { is_digit byte ≡ true → IsValueOf result (byte ∷ []) }
{
    u64::from(byte.saturating_sub(b'0'))
}

/// Returns the value of digits followed by `byte`, if `value` is theirs. With a needless zero the digits are no number.
#[inline(always)]
fn more_value(value: u64, byte: u8) -> u64
    ensures { (text : List ℕ) → IsDigits text → is_digit byte ≡ true
        → IsValueOf value text → IsValueOf result (text ++ byte ∷ []) }
{
    if value == 0 {
        NO_NUMBER
    } else if value > MOST_NUMBER as u64 {
        NO_NUMBER
    } else {
        value * 10 + u64::from(byte.saturating_sub(b'0'))
    }
}
