//! Letters of the environment, as tables of all letters that differ from them in what the system does.

ghost use Rattle.std.specs.Prelude.{◌<◌};

use crate::words::{NAMES_OF_A_WORD, name_word};
use std::alloc::{AllocError, Global};

/// A table of letters, and the numbers of the names that the system controls.
#[derive(Drop)]
pub(crate) struct Projection<'a> {
    controlled: &'a [u32],
    letters: Vec<u64>,
    // The table before a step.
    before: Vec<u64>,
}

impl<'a> Projection<'a> {
    /// Returns an empty table.
    pub(crate) fn new(alloc: Global, controlled: &'a [u32]) -> Projection<'a> {
        Projection {
            controlled,
            letters: Vec::new(alloc),
            before: Vec::new(alloc),
        }
    }

    /// Returns the table.
    pub(crate) fn letters(&self) -> &[u64] {
        self.letters.as_slice()
    }

    /// Replaces the table by that of the letters that two tables have.
    pub(crate) fn set_common(&mut self, one: &[u64], other: &[u64]) -> Result<(), AllocError> {
        self.letters.clear();
        for (word, more) in one.iter().zip(other) {
            self.letters.push(*word & *more)?;
        }
        Ok(())
    }

    /// Adds the letters that differ from letters of the table only in names that the system controls.
    pub(crate) fn add_controlled(&mut self) -> Result<(), AllocError> {
        let controlled = self.controlled;
        for name in controlled {
            self.add_flipped(*name)?;
        }
        Ok(())
    }

    /// Adds the letters that differ from letters of the table only in a name.
    fn add_flipped(&mut self, name: u32) -> Result<(), AllocError> {
        self.before.clear();
        self.before.extend_from_slice(self.letters.as_slice())?;
        for index in 0..self.letters.len() {
            let flipped = flipped_word(self.before.as_slice(), name, index);
            if index < self.letters.len() {
                self.letters[index] |= flipped;
            }
        }
        Ok(())
    }
}

/// Returns a word of the table of the letters that differ in a name from letters of a table.
fn flipped_word(letters: &[u64], name: u32, index: usize) -> u64 {
    if name < NAMES_OF_A_WORD {
        let word = word_at(letters, index);
        let holds = name_word(name, 0);
        let distance = distance_of(name);
        return (word & holds) >> distance | (word & !holds) << distance;
    }
    match 1usize.checked_shl(name.saturating_sub(NAMES_OF_A_WORD)) {
        Some(distance) => word_at(letters, index ^ distance),
        None => 0,
    }
}

/// Returns how far apart the letters of a word are that differ in a name: 2^name.
fn distance_of(name: u32) -> u32
    ensures { result < 64 }
{
    match name {
        0 => 1,
        1 => 2,
        2 => 4,
        3 => 8,
        4 => 16,
        _ => 32,
    }
}

/// Returns a word of a table, empty past the last.
fn word_at(letters: &[u64], index: usize) -> u64 {
    match letters.get(index) {
        Some(word) => *word,
        None => 0,
    }
}

/// Whether a table has no letter.
pub(crate) fn is_empty(letters: &[u64]) -> bool {
    letters.iter().all(|word| *word == 0)
}

/// Removes letters from a table.
pub(crate) fn remove_letters(letters: &mut Vec<u64>, removed: &[u64]) {
    for (word, other) in letters.iter_mut().zip(removed) {
        *word &= !*other;
    }
}
