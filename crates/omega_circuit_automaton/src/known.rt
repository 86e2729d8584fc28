//! What is known of a variable in up to 64 states at once.

ghost use Rattle.std.specs.Prelude.{◌≡◌, ℕ, ◌&&◌, not, Bool, false};
ghost use Rattle.omega_circuit_automaton.specs.private.Lanes.{Allows, IsAmong, known_at, nothing};
ghost use Rattle.omega_circuit_automaton.specs.private.Ternary.{Matches};

use crate::ternary::Ternary;

/// What is known of a variable in states, each of which has its bit in both words.
#[derive(Clone, Copy, Debug)]
pub(crate) struct Known {
    /// The bits of the states in which it is true.
    pub(crate) truths: u64,
    /// The bits of the states in which it is false.
    pub(crate) falsehoods: u64,
}

impl Known {
    /// Returns that nothing is known.
    pub(crate) fn nothing() -> Known
        ensures is { result ≡ nothing }
        ensures allows { (value : Bool) (bit : ℕ) → Allows result bit value }
    {
        Known {
            truths: 0,
            falsehoods: 0,
        }
    }

    /// Returns that it is false in all states.
    pub(crate) fn nowhere() -> Known
        ensures { (bit : ℕ) → Allows result bit false }
    {
        Known {
            truths: 0,
            falsehoods: u64::MAX,
        }
    }

    /// Returns what is known of the negation.
    pub(crate) fn not(self) -> Known
        ensures { (value : Bool) (bit : ℕ) → Allows self bit value → Allows result bit (not value) }
    {
        Known {
            truths: self.falsehoods,
            falsehoods: self.truths,
        }
    }

    /// Returns what is known of the conjunction.
    pub(crate) fn and(self, other: Known) -> Known
        ensures { (one two : Bool) (bit : ℕ) → Allows self bit one → Allows other bit two
            → Allows result bit (one && two) }
    {
        Known {
            truths: self.truths & other.truths,
            falsehoods: self.falsehoods | other.falsehoods,
        }
    }

    /// Returns what is known if it has this value in the state of a bit too.
    pub(crate) fn with(self, bit: u64, value: bool) -> Known
        ensures { (other : ℕ) (held : Bool) → (IsAmong other bit → held ≡ value) → Allows self other held
            → Allows result other held }
    {
        if value {
            Known {
                truths: self.truths | bit,
                falsehoods: self.falsehoods,
            }
        } else {
            Known {
                truths: self.truths,
                falsehoods: self.falsehoods | bit,
            }
        }
    }

    /// Returns the bits of the states in which it is unknown.
    pub(crate) fn unknown(self) -> u64 {
        !(self.truths | self.falsehoods)
    }

    /// Returns what is known in the state of a bit.
    pub(crate) fn at(self, bit: u64) -> Ternary
        ensures { (value : Bool) → Allows self bit value → Matches result value }
    {
        if self.truths & bit != 0 {
            Ternary::True
        } else if self.falsehoods & bit != 0 {
            Ternary::False
        } else {
            Ternary::Unknown
        }
    }
}

/// Returns what is known of a variable.
pub(crate) fn known_of(known: &[Known], variable: u32) -> Known
    ensures { result ≡ known_at known.now variable }
{
    known
        .get(variable as usize)
        .copied()
        .unwrap_or(Known::nothing())
}
