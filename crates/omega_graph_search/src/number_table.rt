use std::alloc::{AllocError, Global};

/// The number that stands for none.
pub const NONE: u32 = u32::MAX;

/// Numbers by index. An index past the end reads as [`NONE`], and a write there does nothing.
pub struct NumberTable {
    items: Vec<u32>,
}

impl Drop for NumberTable {
    fn drop(self) {
        let NumberTable { items: _ } = self;
    }
}

impl NumberTable {
    /// Returns the table of these numbers. Takes no memory.
    pub fn of(items: Vec<u32>) -> NumberTable {
        NumberTable { items }
    }

    /// Returns the table with `number` at each index below `count`.
    pub fn filled(alloc: Global, count: usize, number: u32) -> Result<NumberTable, AllocError> {
        let items = vec![in alloc; number; count]?;
        Ok(NumberTable { items })
    }

    /// Returns the number at `index`, or [`NONE`] past the end.
    #[inline(always)]
    pub fn at(&self, index: u32) -> u32 {
        match self.items.get(index as usize) {
            Some(number) => *number,
            None => NONE,
        }
    }

    /// Writes `number` at `index`, unless that is past the end.
    #[inline(always)]
    pub fn put(&mut self, index: u32, number: u32) {
        if (index as usize) < self.items.len() {
            self.items[index as usize] = number;
        }
    }

    /// Returns the numbers in the order of their indices.
    pub fn into_items(self) -> Vec<u32> {
        let NumberTable { items } = self;
        items
    }
}
