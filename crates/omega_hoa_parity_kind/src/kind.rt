ghost use Rattle.std.specs.Prelude.{◌≡◌, ◌+◌, ◌≤◌};
ghost use Rattle.omega_hoa_parity_kind.specs.Priority.{has_parity, least_from};
ghost use Rattle.omega_text.specs.Limits.{most_number};

/// Which mark of an edge decides.
#[derive(Clone, Copy, Debug, PartialEq, Eq)]
pub enum Order {
    /// The greatest.
    Max,
    /// The least.
    Min,
}

/// Which numbers of marks accept.
#[derive(Clone, Copy, Debug, PartialEq, Eq)]
pub enum Parity {
    Even,
    Odd,
}

impl Parity {
    /// Whether `number` has this parity.
    pub fn has(self, number: u32) -> bool
        ensures { result ≡ has_parity self number }
    {
        match self {
            Parity::Even => number % 2 == 0,
            Parity::Odd => number % 2 == 1,
        }
    }

    /// Returns the least number of this parity from `number` on.
    pub(crate) fn least_from(self, number: u32) -> u32
        requires { number ≤ most_number }
        ensures { result ≡ least_from self number }
    {
        if self.has(number) { number } else { number + 1 }
    }
}

/// A parity condition over marks from 0 to `count` - 1 (HOA v1, `acc-name: parity`).
#[derive(Clone, Copy, Debug, PartialEq, Eq)]
pub struct ParityKind {
    pub order: Order,
    pub parity: Parity,
    pub count: u32,
}
