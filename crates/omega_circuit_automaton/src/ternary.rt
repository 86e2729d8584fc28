//! Values that may be unknown.

ghost use Rattle.std.specs.Prelude.{◌≡◌, ◌&&◌, not, Bool};
ghost use Rattle.omega_circuit_automaton.specs.private.Ternary.{Matches, known};

/// A value, as far as it is known.
#[derive(Clone, Copy, Debug, PartialEq, Eq)]
pub(crate) enum Ternary {
    /// It is false.
    False,
    /// It is true.
    True,
    /// It may be either.
    Unknown,
}

impl Ternary {
    /// Returns what is known if the value is known.
    pub(crate) fn of(value: bool) -> Ternary
        ensures { result ≡ known value }
    {
        if value { Ternary::True } else { Ternary::False }
    }

    /// Returns what is known of the negation.
    pub(crate) fn not(self) -> Ternary
        ensures { (value : Bool) → Matches self value → Matches result (not value) }
    {
        match self {
            Ternary::False => Ternary::True,
            Ternary::True => Ternary::False,
            Ternary::Unknown => Ternary::Unknown,
        }
    }

    /// Returns what is known of the conjunction.
    pub(crate) fn and(self, other: Ternary) -> Ternary
        ensures { (one two : Bool) → Matches self one → Matches other two → Matches result (one && two) }
    {
        match (self, other) {
            (Ternary::False, _) => Ternary::False,
            (_, Ternary::False) => Ternary::False,
            (Ternary::True, Ternary::True) => Ternary::True,
            _ => Ternary::Unknown,
        }
    }
}
