//! Which sets of marks that recur are accepted, while the leaves stay in their components.
use crate::combination::{Combination, find_truths};
use std::alloc::{AllocError, Global};

/// When a leaf accepts, while it stays in its component.
#[derive(Clone, Copy, Debug, PartialEq, Eq)]
pub(crate) enum LeafCondition {
    /// Always, or never.
    Fixed(bool),
    /// If the least mark of `mask` that recurs is at an even distance from the mark `first`; if none does, then if
    /// `otherwise`.
    Least {
        mask: u64,
        first: u32,
        otherwise: bool,
        is_negated: bool,
    },
}

impl LeafCondition {
    /// Returns the marks on which it depends.
    pub(crate) fn mask(self) -> u64 {
        match self {
            LeafCondition::Fixed(_) => 0,
            LeafCondition::Least { mask, .. } => mask,
        }
    }

    /// Whether it holds if these marks recur.
    fn holds(self, marks: u64) -> bool {
        match self {
            LeafCondition::Fixed(value) => value,
            LeafCondition::Least {
                mask,
                first,
                otherwise,
                is_negated,
            } => {
                let recurring = marks & mask;
                let accepts = if recurring == 0 {
                    otherwise
                } else {
                    recurring.trailing_zeros().wrapping_sub(first) % 2 == 0
                };
                accepts != is_negated
            }
        }
    }
}

/// A condition on the marks that recur: a combination of conditions of leaves.
#[derive(Drop)]
pub(crate) struct Condition<'a> {
    nodes: &'a [Combination],
    leaves: Vec<LeafCondition>,
    values: Vec<Option<bool>>,
    truths: Vec<Option<bool>>,
}

impl<'a> Condition<'a> {
    /// Returns the condition of a combination of leaves with these conditions.
    pub(crate) fn new(
        alloc: Global,
        nodes: &'a [Combination],
        leaves: Vec<LeafCondition>,
    ) -> Condition<'a> {
        Condition {
            nodes,
            leaves,
            values: Vec::new(alloc),
            truths: Vec::new(alloc),
        }
    }

    /// Returns the marks on which it depends.
    pub(crate) fn mask(&self) -> u64 {
        let mut mask = 0;
        for leaf in &self.leaves {
            mask |= leaf.mask();
        }
        mask
    }

    /// Whether it holds if these marks recur.
    pub(crate) fn holds(&mut self, marks: u64) -> Result<bool, AllocError> {
        self.values.clear();
        for leaf in &self.leaves {
            self.values.push(Some(leaf.holds(marks)))?;
        }
        let truth = find_truths(self.nodes, self.values.as_slice(), &mut self.truths)?;
        Ok(truth == Some(true))
    }
}
