//! The letters at which labels hold, as tables of bits.

use crate::words::name_word;
use omega_hoa_label::LabelNode;
use std::alloc::{AllocError, Global};

/// Tables of the parts of a label that are not put together yet, side by side.
#[derive(Drop)]
pub(crate) struct LabelLetters<'a> {
    // The table of all letters.
    all: &'a [u64],
    words: Vec<u64>,
}

impl<'a> LabelLetters<'a> {
    /// Returns no tables.
    pub(crate) fn new(alloc: Global, all: &'a [u64]) -> LabelLetters<'a> {
        LabelLetters {
            all,
            words: Vec::new(alloc),
        }
    }

    /// Returns the table of the letters at which a label holds, given by its nodes, parts before their operators. It
    /// lasts until the next call. Linear in the nodes and the words of a table.
    pub(crate) fn table(&mut self, nodes: &[LabelNode]) -> Result<&[u64], AllocError> {
        self.words.clear();
        for node in nodes {
            match *node {
                LabelNode::And => self.join(true),
                LabelNode::Or => self.join(false),
                LabelNode::Not => self.negate(),
                LabelNode::Group => {}
                LabelNode::Constant(value) => self.push_constant(value)?,
                LabelNode::Proposition(name) => self.push_proposition(name)?,
                // A label that is read has none.
                LabelNode::Alias(_) => self.push_constant(false)?,
            }
        }
        Ok(self.words.as_slice())
    }

    /// Pushes the table of all letters, or of none.
    fn push_constant(&mut self, value: bool) -> Result<(), AllocError> {
        for word in self.all {
            self.words.push(if value { *word } else { 0 })?;
        }
        Ok(())
    }

    /// Pushes the table of the letters at which a proposition holds.
    fn push_proposition(&mut self, name: u32) -> Result<(), AllocError> {
        for (index, word) in self.all.iter().enumerate() {
            self.words.push(*word & name_word(name, index))?;
        }
        Ok(())
    }

    /// Replaces the last table by that of all other letters.
    fn negate(&mut self) {
        let first = self.words.len().saturating_sub(self.all.len());
        for (offset, word) in self.all.iter().enumerate() {
            let place = first.saturating_add(offset);
            if place < self.words.len() {
                self.words[place] = *word & !self.words[place];
            }
        }
    }

    /// Replaces the last two tables by that of the letters that both have, or, unless `both`, that one has.
    fn join(&mut self, both: bool) {
        let width = self.all.len();
        let second = self.words.len().saturating_sub(width);
        let first = second.saturating_sub(width);
        for offset in 0..width {
            let place = first.saturating_add(offset);
            let other = second.saturating_add(offset);
            if place < self.words.len() && other < self.words.len() {
                let word = self.words[other];
                if both {
                    self.words[place] &= word;
                } else {
                    self.words[place] |= word;
                }
            }
        }
        self.words.truncate(second);
    }
}
