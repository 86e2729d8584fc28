ghost use Rattle.std.specs.Prelude.{◌≡◌};
ghost use Rattle.omega_hoa_satisfiable.specs.private.Encoding.{left_part, negated_part, right_part};

use crate::exits::Exits;

/// A part of a label that is to be encoded.
#[derive(Clone, Copy)]
pub(crate) struct LabelPart {
    /// Whether the part is to hold; otherwise its negation is.
    pub(crate) wanted: bool,
    pub(crate) exits: Exits,
}

impl LabelPart {
    /// Returns the part of a negation.
    pub(crate) fn negation(self) -> LabelPart
        ensures { result ≡ negated_part self }
    {
        LabelPart {
            wanted: !self.wanted,
            exits: self.exits,
        }
    }

    /// Returns the right one of two parts. Both are to hold if `both`, otherwise one of them.
    pub(crate) fn right(self, both: bool) -> LabelPart
        ensures { result ≡ right_part both self }
    {
        LabelPart {
            wanted: self.wanted,
            exits: self.exits.of_right(both),
        }
    }

    /// Returns the left one of two parts, if the right one is encoded at the place `right`.
    pub(crate) fn left(self, both: bool, right: usize) -> LabelPart
        ensures { result ≡ left_part both self right }
    {
        LabelPart {
            wanted: self.wanted,
            exits: self.exits.of_left(both, right),
        }
    }
}
