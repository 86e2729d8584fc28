//! Which words of a set of positions are not empty, so that a search passes over the others.
use crate::position_set::all_positions;
use std::alloc::{AllocError, Global};

/// The number of positions in a word of the set.
const POSITIONS: usize = 64;

/// A bit for each word of a set of positions: whether it is filled. Only safety is proved. A position that is found by
/// it is looked up in the set.
pub struct FilledWords {
    bits: Vec<u64>,
}

impl Drop for FilledWords {
    fn drop(self) {
        let FilledWords { bits: _ } = self;
    }
}

impl FilledWords {
    /// Marks all words of a set of `positions` positions as filled. Returns an error if a request for memory is
    /// refused.
    pub fn all(alloc: Global, positions: u32) -> Result<FilledWords, AllocError> {
        let bits = all_positions(alloc, positions / 64)?;
        Ok(FilledWords { bits })
    }

    /// Notes that `position` is about to be put into the set, whose words are now `words`. A word that is not empty was
    /// noted before.
    #[inline(always)]
    pub fn note_insertion(&mut self, words: &[u64], position: usize) {
        let word = position / POSITIONS;
        if word < words.len() && words[word] == 0 {
            self.note_filled(word);
        }
    }

    /// Notes that `word` of the set is filled.
    fn note_filled(&mut self, word: usize) {
        let at = word / 64;
        if at < self.bits.len() {
            self.bits[at] |= 1 << (word % 64);
        }
    }

    /// Notes that `word` of the set is empty.
    fn note_empty(&mut self, word: usize) {
        let at = word / 64;
        if at < self.bits.len() {
            self.bits[at] &= !(1 << (word % 64));
        }
    }

    /// Notes that `position` was taken out of the set, whose words are now `words`.
    #[inline(always)]
    pub fn note_removed(&mut self, words: &[u64], position: usize) {
        let word = position / POSITIONS;
        if word < words.len() && words[word] == 0 {
            self.note_empty(word);
        }
    }

    /// Returns the first filled word from `word` on.
    fn next_from(&self, word: usize) -> Option<usize> {
        let first = word / 64;
        if first >= self.bits.len() {
            return None;
        }
        let rest = self.bits[first] & (u64::MAX << (word % 64));
        if rest != 0 {
            return Some(bit_at(first, rest));
        }
        for at in first + 1..self.bits.len() {
            let bits = self.bits[at];
            if bits != 0 {
                return Some(bit_at(at, bits));
            }
        }
        None
    }
}

/// Returns the least position of a set from `from` on, found by the words of the set that are filled. The caller tests
/// that it is in the set.
#[inline(always)]
pub fn least_from(words: &[u64], filled: &FilledWords, from: usize) -> Option<usize> {
    let first = from / POSITIONS;
    if first >= words.len() {
        return None;
    }
    let rest = words[first] & (u64::MAX << (from % POSITIONS));
    if rest != 0 {
        return Some(bit_at(first, rest));
    }
    let next = filled.next_from(first + 1)?;
    if next >= words.len() {
        return None;
    }
    Some(bit_at(next, words[next]))
}

/// Returns the index of the lowest set bit of `word`, counted from the first word. `place` is the index of `word`.
#[inline(always)]
fn bit_at(place: usize, word: u64) -> usize {
    place
        .saturating_mul(64)
        .saturating_add(word.trailing_zeros() as usize)
}
