//! The letters at a state of a product, split by the edges of the leaves.
ghost use Rattle.std.specs.Prelude.{IfErr};
ghost use Rattle.omega_ltl_determinization.specs.Refusing.{IsLarge};

use crate::leaf_table::{FALSE, LeafTable, TRUE};
use crate::limits::MOST_PART_WORDS;
use crate::parts::{Part, Parts};
use crate::truths::Truths;
use omega_graph_search::NONE;
use omega_text::{Refusal, TaskFault};
use std::alloc::{AllocError, Global};

/// Returns the parts of the letters `all` at which the leaves, which are in these states, come to the same states by
/// the same marks. Parts at which the whole is false are left out, and those at which it is true are added to
/// `universal`. Fails with [`TaskFault::TooLarge`] if the letters take too many words.
pub(crate) fn parts_at(
    alloc: Global,
    tables: &[LeafTable<'_>],
    truths: &mut Truths<'_>,
    all: &[u64],
    states: &[u32],
    universal: &mut Vec<u64>,
) -> Result<Parts, Refusal>
    ensures { IfErr result IsLarge }
{
    let mut parts = Parts::new(alloc, states.len(), all.len());
    let whole = Part {
        letters: all,
        marks: 0,
        states,
    };
    parts.push(whole, states.len(), NONE)?;
    for (leaf, table) in tables.iter().enumerate() {
        let state = states.get(leaf).copied().unwrap_or(FALSE);
        if state == TRUE || state == FALSE {
            continue;
        }
        let mut split = Split {
            leaf,
            parts: Parts::new(alloc, states.len(), all.len()),
            left: Vec::new(alloc),
            common: Vec::from_slice(alloc, all)?,
        };
        split.add_all(table, state, &parts, truths, universal)?;
        parts = split.parts;
        if parts.word_length() > MOST_PART_WORDS {
            return Err(Refusal::Task(TaskFault::TooLarge));
        }
    }
    Ok(parts)
}

/// Parts that are being split by the edges of a leaf.
#[derive(Drop)]
struct Split {
    leaf: usize,
    parts: Parts,
    // The letters of a part that are in no edge so far, and those that are in the last edge.
    left: Vec<u64>,
    common: Vec<u64>,
}

impl Split {
    /// Adds the parts into which the edges of a state of a leaf split others.
    fn add_all(
        &mut self,
        table: &LeafTable<'_>,
        state: u32,
        parts: &Parts,
        truths: &mut Truths<'_>,
        universal: &mut Vec<u64>,
    ) -> Result<(), AllocError> {
        for index in 0..parts.len() {
            self.add_part(table, state, parts.at(index), truths, universal)?;
        }
        Ok(())
    }

    /// Adds the parts into which the edges of a state of a leaf split one.
    fn add_part(
        &mut self,
        table: &LeafTable<'_>,
        state: u32,
        part: Part<'_>,
        truths: &mut Truths<'_>,
        universal: &mut Vec<u64>,
    ) -> Result<(), AllocError> {
        self.left.clear();
        self.left.extend_from_slice(part.letters)?;
        for edge in table.edges_of(state) {
            if self.take_letters(table.letters.at(edge)) {
                let marks = part.marks | table.marks_of(state, edge);
                self.add_common(part, marks, table.target(edge), truths, universal)?;
            }
        }
        if self.take_rest()? {
            let state = table.state_outside();
            self.add_common(part, part.marks, state, truths, universal)?;
        }
        Ok(())
    }

    /// Moves the letters of an edge from those left. Returns whether there are any. All tables are as long.
    fn take_letters(&mut self, letters: &[u64]) -> bool {
        let mut some = 0u64;
        let left = self.left.iter_mut();
        for ((word, common), own) in left.zip(self.common.iter_mut()).zip(letters) {
            let taken = *word & *own;
            *word &= !*own;
            *common = taken;
            some |= taken;
        }
        some != 0
    }

    /// Moves all letters from those left. Returns whether there are any.
    fn take_rest(&mut self) -> Result<bool, AllocError> {
        self.common.clear();
        self.common.extend_from_slice(self.left.as_slice())?;
        Ok(self.left.iter().any(|word| *word != 0))
    }

    /// Adds the part of the letters taken last, with these marks and with `state` for the leaf, unless the whole is
    /// true or false there.
    fn add_common(
        &mut self,
        part: Part<'_>,
        marks: u64,
        state: u32,
        truths: &mut Truths<'_>,
        universal: &mut Vec<u64>,
    ) -> Result<(), AllocError> {
        let taken = Part {
            letters: self.common.as_slice(),
            marks,
            states: part.states,
        };
        self.parts.push(taken, self.leaf, state)?;
        if state != TRUE && state != FALSE {
            return Ok(());
        }
        let last = self.parts.len().saturating_sub(1);
        if let Some(truth) = truths.truth(self.parts.at(last).states)? {
            if truth {
                unite(universal, self.common.as_slice());
            }
            self.parts.pop();
        }
        Ok(())
    }
}

/// Adds letters to a table that is as long.
fn unite(table: &mut Vec<u64>, letters: &[u64]) {
    for (word, more) in table.iter_mut().zip(letters) {
        *word |= *more;
    }
}
