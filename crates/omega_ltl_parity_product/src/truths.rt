use crate::combination::{Combination, find_needed, find_truths};
use crate::leaf_table::{FALSE, TRUE};
use std::alloc::{AllocError, Global};

/// The truth of a combination as far as the leaves' states tell it.
#[derive(Drop)]
pub(crate) struct Truths<'a> {
    nodes: &'a [Combination],
    // By leaf, and by node, its truth, or none where it is open.
    leaves: Vec<Option<bool>>,
    truths: Vec<Option<bool>>,
    // By node, whether the whole may depend on it.
    needed: Vec<bool>,
}

impl<'a> Truths<'a> {
    /// Returns what tells the truth of a combination.
    pub(crate) fn new(alloc: Global, nodes: &'a [Combination]) -> Truths<'a> {
        Truths {
            nodes,
            leaves: Vec::new(alloc),
            truths: Vec::new(alloc),
            needed: Vec::new(alloc),
        }
    }

    /// Returns the nodes of the combination.
    pub(crate) fn nodes(&self) -> &'a [Combination] {
        self.nodes
    }

    /// Returns the truth of the whole where the leaves are in these states, or none if it is open.
    pub(crate) fn truth(&mut self, states: &[u32]) -> Result<Option<bool>, AllocError> {
        self.leaves.clear();
        for state in states {
            self.leaves.push(truth_of_state(*state))?;
        }
        find_truths(self.nodes, self.leaves.as_slice(), &mut self.truths)
    }

    /// Returns the states of the leaves on which the whole depends, whose truth is open in these states. Other leaves
    /// are false unless they are true.
    pub(crate) fn needed_states(
        &mut self,
        alloc: Global,
        states: &[u32],
    ) -> Result<Vec<u32>, AllocError> {
        self.truth(states)?;
        find_needed(self.nodes, self.truths.as_slice(), &mut self.needed)?;
        let mut reduced = vec![in alloc; FALSE; states.len()]?;
        for (node, needed) in self.nodes.iter().zip(self.needed.as_slice()) {
            if let Combination::Leaf(leaf) = *node {
                let index = leaf as usize;
                let state = states.get(index).copied().unwrap_or(FALSE);
                if index < reduced.len() && (*needed || state == TRUE) {
                    reduced[index] = state;
                }
            }
        }
        Ok(reduced)
    }
}

/// Returns the truth of a leaf with this in the place of its state, or none if it is open.
fn truth_of_state(state: u32) -> Option<bool> {
    if state == TRUE {
        return Some(true);
    }
    if state == FALSE {
        return Some(false);
    }
    None
}
