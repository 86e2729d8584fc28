ghost use Rattle.std.specs.Prelude.{◌≡◌};

use omega_arrays::ArrayFault;

/// How a call ended.
#[repr(C)]
#[derive(Clone, Copy, Debug, PartialEq, Eq)]
pub struct Outcome {
    /// 0 if the call gave its answer, or else the number of what refused it.
    pub number: u32,
    /// With [ArrayFault::BadShape], which array has the wrong entry; else 0.
    pub array: u32,
    /// With [ArrayFault::BadShape], the index of that entry; else 0.
    pub place: u64,
}

impl Outcome {
    ghost use Rattle.omega.specs.Outcome.{given, outcome_of};

    /// Returns the outcome of a call that gave its answer.
    pub(crate) fn success() -> Outcome
        ensures { result ≡ given }
    {
        Outcome {
            number: 0,
            array: 0,
            place: 0,
        }
    }

    /// Returns the outcome of a call that `fault` refused.
    pub(crate) fn of(fault: ArrayFault) -> Outcome
        ensures { result ≡ outcome_of fault }
    {
        match fault {
            ArrayFault::BadShape(wrong) => Outcome {
                number: BAD_SHAPE,
                array: wrong.array,
                place: wrong.place,
            },
            ArrayFault::Refused(refusal) => Outcome {
                number: refusal.number(),
                array: 0,
                place: 0,
            },
        }
    }
}

/// The number of the refusal of arrays that encode no game, or no answer for one.
const BAD_SHAPE: u32 = 57;
