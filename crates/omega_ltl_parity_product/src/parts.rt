use omega_graph_search::{NONE, number_of};
use omega_ltl_determinization::LetterSets;
use std::alloc::{AllocError, Global};

/// A part of the letters at a state of the product.
#[derive(Clone, Copy)]
pub(crate) struct Part<'a> {
    pub letters: &'a [u64],
    /// The marks of the edges that the leaves take at these letters.
    pub marks: u64,
    /// What each leaf comes to.
    pub states: &'a [u32],
}

/// Parts of the letters at a state of a product.
#[derive(Drop)]
pub(crate) struct Parts {
    letters: LetterSets,
    marks: Vec<u64>,
    // Part by part, and leaf by leaf within.
    states: Vec<u32>,
    leaves: usize,
}

impl Parts {
    /// Returns no parts, of products of `leaves` leaves, whose letters take `width` words.
    pub(crate) fn new(alloc: Global, leaves: usize, width: usize) -> Parts {
        Parts {
            letters: LetterSets::new(alloc, width),
            marks: Vec::new(alloc),
            states: Vec::new(alloc),
            leaves,
        }
    }

    /// Returns how many parts there are.
    pub(crate) fn len(&self) -> u32 {
        number_of(self.marks.len())
    }

    /// Returns how many words their letters take together.
    pub(crate) fn word_length(&self) -> usize {
        self.letters.word_length()
    }

    /// Returns the part at an index, which has no letters and no states past the last.
    pub(crate) fn at(&self, index: u32) -> Part<'_> {
        let first = (index as usize).saturating_mul(self.leaves);
        let states = match self.states.get(first..first.saturating_add(self.leaves)) {
            Some(states) => states,
            None => &[],
        };
        Part {
            letters: self.letters.at(index),
            marks: self.marks.get(index as usize).copied().unwrap_or(0),
            states,
        }
    }

    /// Adds a part, but with `state` for the leaf `leaf`.
    pub(crate) fn push(
        &mut self,
        part: Part<'_>,
        leaf: usize,
        state: u32,
    ) -> Result<(), AllocError> {
        self.letters.push(part.letters)?;
        self.marks.push(part.marks)?;
        for index in 0..self.leaves {
            let old = part.states.get(index).copied().unwrap_or(NONE);
            self.states.push(if index == leaf { state } else { old })?;
        }
        Ok(())
    }

    /// Drops the last part.
    pub(crate) fn pop(&mut self) {
        let _ = self.marks.pop();
        self.letters.pop();
        let kept = self.states.len().saturating_sub(self.leaves);
        self.states.truncate(kept);
    }
}
