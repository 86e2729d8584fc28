ghost use Rattle.std.specs.Prelude.{◌≡◌, ◌++◌, ◌∷◌, ◌-◌, ◌^◌, [], length, min, replicate, slice_index_or};
ghost use Rattle.std.specs.Prelude.{slice_set, OnErr, OnOk};

use omega_graph_search::{NONE, number_of};
use std::alloc::{AllocError, Global};
use std::marker::Model;

/// Numbers by index, to which more are appended. An index past the end reads as [`NONE`], and a write there does
/// nothing.
#[derive(Debug)]
pub struct NumberList {
    items: Vec<u32>,
}

impl Drop for NumberList {
    fn drop(self) {
        let NumberList { items: _ } = self;
    }
}

impl Model for NumberList {
    ghost use Rattle.std.specs.Prelude.{List, ℕ};

    ghost Value = { List ℕ };

    ghost view = { λ list. list.items.items };
}

impl NumberList {
    /// Returns the empty list, which takes no memory.
    pub fn new(alloc: Global) -> NumberList
        ensures { result ≡ [] }
    {
        NumberList {
            items: Vec::new(alloc),
        }
    }

    /// Returns how many numbers there are, at most [`NONE`].
    #[inline(always)]
    pub fn len(&self) -> u32
        ensures { result ≡ min (length self.now) (2 ^ 32 - 1) }
    {
        number_of(self.items.len())
    }

    /// Returns the number at `index`, or [`NONE`] past the end.
    #[inline(always)]
    pub fn at(&self, index: u32) -> u32
        ensures { result ≡ slice_index_or self.now index (2 ^ 32 - 1) }
    {
        match self.items.get(index as usize) {
            Some(number) => *number,
            None => NONE,
        }
    }

    /// Writes `number` at `index`, unless that is past the end.
    #[inline(always)]
    pub fn put(&mut self, index: u32, number: u32)
        ensures { self.new ≡ slice_set self.old index number }
    {
        if (index as usize) < self.items.len() {
            self.items[index as usize] = number;
        }
    }

    /// Appends `number`.
    #[inline(always)]
    pub fn push(&mut self, number: u32) -> Result<(), AllocError>
        ensures ok { OnOk result (self.new ≡ self.old ++ number ∷ []) }
        ensures err { OnErr result (self.new ≡ self.old) }
    {
        self.items.push(number)?;
        Ok(())
    }

    /// Makes the list `count` times `number`.
    pub fn fill(&mut self, count: u32, number: u32) -> Result<(), AllocError>
        ensures { OnOk result (self.new ≡ replicate count number) }
    {
        self.items.clear();
        self.items.resize(count as usize, number)
    }

    /// Makes the list the one of `numbers`.
    pub fn copy(&mut self, numbers: &[u32]) -> Result<(), AllocError>
        ensures { OnOk result (self.new ≡ numbers.now) }
    {
        self.items.clear();
        self.items.extend_from_slice(numbers)
    }

    /// Drops all numbers.
    pub fn clear(&mut self)
        ensures { self.new ≡ [] }
    {
        self.items.clear();
    }

    /// Brings the numbers into rising order.
    pub fn sort(&mut self) {
        self.items.sort_unstable();
    }

    /// Returns the numbers in order.
    pub fn as_slice(&self) -> &[u32]
        ensures { result.now ≡ self.now }
    {
        self.items.as_slice()
    }
}
