ghost use Rattle.std.specs.Prelude.{◌≡◌};
ghost use Rattle.omega.specs.TextOutcome.{about_input, place_number, text_number};

use omega_io::{Refused, Which};
use omega_text::Refusal;

/// How a call ended that is given one text or two.
#[repr(C)]
#[derive(Clone, Copy, Debug, PartialEq, Eq)]
pub struct TextOutcome {
    /// 0 if the call gave its answer, or else the number of the refusal.
    pub number: u32,
    /// Which text is refused: 1 for the first that the call is given, 2 for the second, 0 for neither.
    pub text: u32,
    /// The place of the refusal, as [Refusal::at] has it, or the greatest number if it has none.
    pub place: u64,
}

impl TextOutcome {
    ghost use Rattle.omega.specs.TextOutcome.{given, outcome_of};

    /// Returns the outcome of a call that gave its answer.
    pub(crate) fn success() -> TextOutcome
        ensures { result ≡ given }
    {
        TextOutcome {
            number: 0,
            text: 0,
            place: NO_PLACE,
        }
    }

    /// Returns the outcome of a call that was refused so.
    pub(crate) fn of(refused: Refused) -> TextOutcome
        ensures { result ≡ outcome_of refused }
    {
        TextOutcome {
            number: refused.refusal.number(),
            text: text_number(refused.text),
            place: place_number(refused.refusal),
        }
    }

    /// Returns the outcome of a call that is given one text and was refused so. Want of memory is about no text.
    pub(crate) fn of_one(refusal: Refusal) -> TextOutcome
        ensures { result ≡ outcome_of (about_input refusal) }
    {
        TextOutcome::of(about_input(refusal))
    }
}

/// The place of what has none.
const NO_PLACE: u64 = u64::MAX;

/// Makes `refusal` one of the input, unless it is [Refusal::Memory].
fn about_input(refusal: Refusal) -> Refused
    ensures { result ≡ about_input refusal }
{
    match refusal {
        Refusal::Memory => Refused::from(refusal),
        _ => Refused {
            refusal,
            text: Some(Which::Input),
        },
    }
}

/// Returns the number of a text: 1 for the input, 2 for the file.
fn text_number(text: Option<Which>) -> u32
    ensures { result ≡ text_number text }
{
    match text {
        None => 0,
        Some(Which::Input) => 1,
        Some(Which::File) => 2,
    }
}

/// Returns the place of `refusal`, or [NO_PLACE].
fn place_number(refusal: Refusal) -> u64
    ensures { result ≡ place_number refusal }
{
    match refusal.at() {
        Some(at) => at as u64,
        None => NO_PLACE,
    }
}
