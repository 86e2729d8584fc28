ghost use Rattle.std.specs.Prelude.{◌≡◌, OnOk, length};
ghost use Rattle.omega_ltl_determinization.specs.Letters.{no_tables, table_at, table_count, with_table};
ghost use Rattle.omega_ltl_determinization.specs.Letters.{without_last, without_tables};

use std::alloc::{AllocError, Global};
use std::marker::Model;

/// Sets of letters side by side, each a table of as many words.
#[derive(Debug)]
pub struct LetterSets {
    width: usize,
    words: Vec<u64>,
}

impl Drop for LetterSets {
    fn drop(self) {
        let LetterSets { width: _, words: _ } = self;
    }
}

impl Model for LetterSets {
    ghost use Rattle.omega_ltl_determinization.specs.Letters.{LetterTables};

    ghost Value = { LetterTables };

    ghost view = { λ s. record { width = s.width; words = s.words.items } };
}

impl LetterSets {
    /// Returns no sets. The table of each is to have `width` words.
    pub fn new(alloc: Global, width: usize) -> LetterSets
        ensures { result ≡ no_tables width }
    {
        LetterSets {
            width,
            words: Vec::new(alloc),
        }
    }

    /// Returns how many sets there are, at most 2^32 - 1.
    pub fn len(&self) -> u32
        ensures { result ≡ table_count self.now }
    {
        if self.width == 0 {
            return 0;
        }
        (self.words.len() / self.width).min(u32::MAX as usize) as u32
    }

    /// Returns how many words the tables have together.
    pub fn word_length(&self) -> usize
        ensures { result ≡ length self.now.words }
    {
        self.words.len()
    }

    /// Returns the words of all tables, side by side. They are not copied.
    pub(crate) fn into_words(self) -> Vec<u64>
        ensures { result.items ≡ self.words }
    {
        let LetterSets { width: _, words } = self;
        words
    }

    /// Returns the table of the set at `index`, which is empty past the last.
    #[inline(always)]
    pub fn at(&self, index: u32) -> &[u64]
        ensures { result.now ≡ table_at self.now index }
    {
        let first = (index as usize).saturating_mul(self.width);
        match self.words.get(first..first.saturating_add(self.width)) {
            Some(set) => set,
            None => &[],
        }
    }

    /// Appends a set. Words that its table lacks are empty, and words that it has too many are left out.
    pub fn push(&mut self, set: &[u64]) -> Result<(), AllocError>
        ensures { OnOk result (self.new ≡ with_table self.old set.now) }
    {
        let count = set.len().min(self.width);
        self.words.extend_from_slice(&set[..count])?;
        for _index in 0..self.width - count {
            self.words.push(0)?;
        }
        Ok(())
    }

    /// Replaces the set at `index`, if it is there.
    pub(crate) fn put(&mut self, index: u32, set: &[u64]) {
        let first = (index as usize).saturating_mul(self.width);
        for (offset, word) in set.iter().enumerate() {
            let place = first.saturating_add(offset);
            if offset < self.width && place < self.words.len() {
                self.words[place] = *word;
            }
        }
    }

    /// Adds the letters of `set` to the set at `index`, if it is there.
    pub fn unite(&mut self, index: u32, set: &[u64]) {
        let first = (index as usize).saturating_mul(self.width);
        for (offset, word) in set.iter().enumerate() {
            let place = first.saturating_add(offset);
            if offset < self.width && place < self.words.len() {
                self.words[place] |= *word;
            }
        }
    }

    /// Drops the last set.
    pub fn pop(&mut self)
        ensures { self.new ≡ without_last self.old }
    {
        let kept = self.words.len().saturating_sub(self.width);
        self.words.truncate(kept);
    }

    /// Drops all sets.
    pub fn clear(&mut self)
        ensures { self.new ≡ without_tables self.old }
    {
        self.words.clear();
    }
}
