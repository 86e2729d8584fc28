ghost use Rattle.std.specs.Prelude.{◌≡◌, None, Some, option_map};

use crate::numbers::{Held, Numbers};
use std::marker::Model;

/// The sets of a state or an edge as they are written, or none without braces. Contracts see an optional list.
///
/// It takes 16 bytes, as `Numbers` does, while an `Option<Numbers>` takes 24.
#[derive(Debug)]
pub struct Marks {
    written: Written,
}

impl Drop for Marks {
    fn drop(self) {
        let Marks { written: _ } = self;
    }
}

/// The sets, if there are braces.
#[derive(Debug, Drop)]
enum Written {
    /// There are no braces.
    Absent,
    /// In place: the first `count` of `values`.
    Short { count: u8, values: [u32; 3] },
    /// In an allocation.
    Long(Box<Vec<u32>>),
}

const _: () = prove!(std::mem::size_of::<Marks>() <= 16);

impl Model for Marks {
    ghost use Rattle.std.specs.Prelude.{List, Option, ℕ};
    ghost use Rattle.omega_text.specs.private.Marks.{fits_in_place, marks_in};

    ghost Value = { Option (List ℕ) };

    ghost view = { λ m. marks_in m.written };

    ghost invariant = { λ m. fits_in_place m.written };
}

impl Marks {
    /// Makes the marks without braces.
    pub fn absent() -> Self
        ensures { result ≡ None }
    {
        Marks {
            written: Written::Absent,
        }
    }

    /// Makes the marks with `sets` between braces.
    pub fn of(sets: Numbers) -> Self
        ensures { result ≡ Some sets }
    {
        let written = match sets.into_held() {
            Held::Short { count, values } => Written::Short { count, values },
            Held::Long(numbers) => Written::Long(numbers),
        };
        Marks { written }
    }

    /// Returns the sets between the braces, or none without braces.
    pub fn into_numbers(self) -> Option<Numbers>
        ensures { result ≡ self }
    {
        let Marks { written } = self;
        match written {
            Written::Absent => None,
            Written::Short { count, values } => Some(Numbers {
                held: Held::Short { count, values },
            }),
            Written::Long(numbers) => Some(Numbers {
                held: Held::Long(numbers),
            }),
        }
    }

    /// Returns the sets between the braces, or none without braces.
    pub fn as_slice(&self) -> Option<&[u32]>
        ensures { option_map (λ sets. sets.now) result ≡ self.now }
    {
        match &self.written {
            Written::Absent => None,
            Written::Short { count, values } => Some(&values[..*count as usize]),
            Written::Long(numbers) => Some(numbers.as_slice()),
        }
    }
}
