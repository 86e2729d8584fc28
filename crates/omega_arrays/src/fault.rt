ghost use Rattle.std.specs.Prelude.{◌≡◌};

use omega_text::Refusal;

/// The first wrong entry of arrays that encode no game, or no answer for one.
#[repr(C)]
#[derive(Clone, Copy, Debug, PartialEq, Eq)]
pub struct WrongEntry {
    /// Which array it is in: 0 the priorities, 1 the owners, 2 the starts, 3 the successors, 4 the winners, 5 the
    /// choices.
    pub array: u32,
    /// Its index there: of an array that is too short, that of the first entry that is missing.
    pub place: u64,
}

/// Why a call on arrays gives no answer.
#[derive(Clone, Copy, Debug, PartialEq, Eq)]
pub enum ArrayFault {
    /// 57 `BadShape`: an entry is wrong, or there are too few or too many.
    BadShape(WrongEntry),
    /// A refusal of the game that the arrays encode, or [Refusal::Memory].
    Refused(Refusal),
}

impl From<Refusal> for ArrayFault {
    ghost use Rattle.omega_arrays.specs.declared.fault.ArrayFault.TheVariants.{Refused};

    ghost from_gives = { λ refusal fault. fault ≡ Refused refusal };

    fn from(refusal: Refusal) -> ArrayFault {
        ArrayFault::Refused(refusal)
    }
}
