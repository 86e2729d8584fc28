ghost use Rattle.std.specs.Prelude.{◌≡◌, ℕ, IfOk, IfErr};
ghost use Rattle.std.specs.List.{list_all};
ghost use Rattle.omega_cli_command.specs.Reason.{IsNumberReason};
ghost use Rattle.omega_cli_command.specs.Values.{IsNumberText};
ghost use Rattle.omega_cli_command.specs.private.Numbers.{is_decimal, reason_for};

use crate::mistake::Reason;
use std::num::IntErrorKind;

/// Returns the number that `text` has in decimal digits if it is from `least` to `most`, or why it has none.
pub fn number_in(text: &str, least: u64, most: u64) -> Result<u64, Reason>
    ensures number { IfOk result (IsNumberText least most text.now) }
    ensures none { IfErr result (λ _. (number : ℕ) → IsNumberText least most text.now number → ⊥) }
    ensures reason { IfErr result (IsNumberReason least most text.now) }
{
    // The numbers of `std` may begin with a plus. A plus and a minus are refused with the same reason.
    if text.starts_with('+') || text.starts_with('-') {
        return Err(Reason::Sign);
    }
    match text.parse::<u64>() {
        Ok(number) => {
            if least <= number && number <= most {
                Ok(number)
            } else {
                Err(Reason::Outside {
                    number,
                    least,
                    most,
                })
            }
        }
        Err(error) => Err(reason_of(error.kind(), text.as_bytes())),
    }
}

/// Returns why `std` reads no number of 64 bits in `text`. `std` may find a number too large before it comes to a byte
/// that is no digit.
fn reason_of(kind: &IntErrorKind, text: &[u8]) -> Reason
    ensures { result ≡ reason_for (list_all is_decimal text.now) kind.now }
{
    match kind {
        IntErrorKind::Empty => Reason::Empty,
        IntErrorKind::PosOverflow if has_digits_alone(text) => Reason::TooLarge,
        _ => Reason::NotDigits,
    }
}

/// Whether each byte of `text` is a digit.
fn has_digits_alone(text: &[u8]) -> bool
    ensures { result ≡ list_all is_decimal text.now }
{
    for byte in text {
        if !char::from(*byte).is_digit(10) {
            return false;
        }
    }
    true
}
