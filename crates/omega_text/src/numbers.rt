ghost use Rattle.std.specs.Prelude.{◌≡◌, ◌≤◌, [], ◌∷◌, ◌++◌, length, take, IfOk, OnErr, OnOk};
ghost use Rattle.omega_text.specs.private.Numbers.{fits_in_place, numbers_in};

use std::alloc::{AllocError, Global};
use std::marker::Model;

/// The number of values that are kept in place.
const MOST_IN_PLACE: u8 = 3;

/// A list of numbers that contracts see as a list only. Up to three numbers are kept in place and take no memory.
///
/// Lists of marks and of targets are nearly always so short: they take 16 bytes, while a vector takes 24 and an
/// allocation.
#[derive(Debug)]
pub struct Numbers {
    pub(crate) held: Held,
}

impl Drop for Numbers {
    fn drop(self) {
        let Numbers { held: _ } = self;
    }
}

/// The numbers, in place or in an allocation.
#[derive(Debug, Drop)]
pub(crate) enum Held {
    /// In place: the first `count` of `values`.
    Short { count: u8, values: [u32; 3] },
    /// In an allocation.
    Long(Box<Vec<u32>>),
}

impl Model for Numbers {
    ghost use Rattle.std.specs.Prelude.{List, ℕ};
    ghost use Rattle.omega_text.specs.private.Numbers.{fits_in_place, numbers_in};

    ghost Value = { List ℕ };

    ghost view = { λ n. numbers_in n.held };

    ghost invariant = { λ n. fits_in_place n.held };
}

impl Numbers {
    /// Returns the numbers as they are kept.
    pub(crate) fn into_held(self) -> Held
        ensures numbers { numbers_in result ≡ self }
        ensures fits { fits_in_place result }
    {
        let Numbers { held } = self;
        held
    }

    /// Returns the empty list.
    pub fn new() -> Self
        ensures { result ≡ [] }
    {
        Numbers {
            held: Held::Short {
                count: 0,
                values: [0; 3],
            },
        }
    }

    /// Makes a list of `number` alone.
    pub fn one(number: u32) -> Self
        ensures { result ≡ number ∷ [] }
    {
        Numbers {
            held: Held::Short {
                count: 1,
                values: [number; 3],
            },
        }
    }

    /// Copies `numbers` into a list. Takes memory for more than three.
    pub fn from_slice(alloc: Global, numbers: &[u32]) -> Result<Self, AllocError>
        ensures { IfOk result (λ list. list ≡ numbers.now) }
    {
        let mut list = Numbers::new();
        for number in numbers {
            list.push(alloc, *number)?;
        }
        Ok(list)
    }

    /// Appends `number`. Takes memory from the fourth on.
    pub fn push(&mut self, alloc: Global, number: u32) -> Result<(), AllocError>
        ensures ok { OnOk result (self.new ≡ self.old ++ number ∷ []) }
        ensures err { OnErr result (self.new ≡ self.old) }
    {
        match &mut self.held {
            &mut Held::Short { count, values } => {
                self.held = with_one_more(alloc, count, values, number)?;
            }
            Held::Long(numbers) => numbers.push(number)?,
        }
        Ok(())
    }

    /// Returns the numbers, in order.
    pub fn as_slice(&self) -> &[u32]
        ensures { result.now ≡ self.now }
    {
        match &self.held {
            Held::Short { count, values } => &values[..*count as usize],
            Held::Long(numbers) => numbers.as_slice(),
        }
    }

    /// Returns the count of the numbers.
    pub fn len(&self) -> usize
        ensures { result ≡ length self.now }
    {
        self.as_slice().len()
    }
}

/// Returns the first `count` of `values`, followed by `number`; in an allocation if there is no room in place.
fn with_one_more(
    alloc: Global,
    count: u8,
    values: [u32; 3],
    number: u32,
) -> Result<Held, AllocError>
    requires { count ≤ 3 }
    ensures held { IfOk result (λ held. numbers_in held ≡ take count values ++ number ∷ []) }
    ensures fits { IfOk result fits_in_place }
{
    if count < MOST_IN_PLACE {
        let mut values = values;
        values[count as usize] = number;
        return Ok(Held::Short {
            count: count + 1,
            values,
        });
    }
    let mut numbers = Vec::with_capacity(alloc, 8)?;
    numbers.extend_from_slice(values.as_slice())?;
    numbers.push(number)?;
    Ok(Held::Long(Box::new(alloc, numbers)?))
}

impl PartialEq for Numbers {
    ghost use Rattle.std.specs.Prelude.{nat_eq};
    ghost use Rattle.std.specs.Cmp.Lexicographic.{pointwise};
    ghost use Rattle.std.proofs.Common.{rules};
    ghost use Rattle.std.specs.Cmp.Rules.{comparing};

    ghost eq = { pointwise nat_eq };

    ghost laws = { Prim.search (comparing, rules) };

    fn eq(&self, other: &Numbers) -> bool {
        self.as_slice() == other.as_slice()
    }
}

impl Eq for Numbers {
    ghost use Rattle.std.proofs.Common.{rules};
    ghost use Rattle.std.specs.Cmp.Rules.{comparing};

    ghost laws = { Prim.search (comparing, rules) };
}
