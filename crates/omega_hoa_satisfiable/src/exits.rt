ghost use Rattle.std.specs.Prelude.{◌≡◌};
ghost use Rattle.omega_hoa_satisfiable.specs.private.Encoding.{left_exits, right_exits};

use crate::steps::STUCK;

/// The places at which the search goes on after a part of a label, and otherwise.
#[derive(Clone, Copy)]
pub(crate) struct Exits {
    pub(crate) after: usize,
    pub(crate) otherwise: usize,
    /// Whether each valuation that leads to the end from `otherwise` also does from `after`.
    pub(crate) whole: bool,
}

impl Exits {
    /// Returns the exits of the right one of two parts, for a conjunction if `both`, otherwise for a disjunction.
    pub(crate) fn of_right(self, both: bool) -> Exits
        ensures { result ≡ right_exits both self }
    {
        if both {
            Exits {
                after: self.after,
                otherwise: STUCK,
                whole: true,
            }
        } else {
            self
        }
    }

    /// Returns the exits of the left one of two parts, if the right one is encoded at the place `right`.
    pub(crate) fn of_left(self, both: bool, right: usize) -> Exits
        ensures { result ≡ left_exits both self right }
    {
        if both {
            Exits {
                after: right,
                otherwise: self.otherwise,
                whole: self.otherwise == STUCK,
            }
        } else {
            Exits {
                after: self.after,
                otherwise: right,
                whole: self.whole,
            }
        }
    }
}
