ghost use Rattle.std.specs.Prelude.{IfErr};
ghost use Rattle.omega_ltl_determinization.specs.Refusing.{IsLarge};

use crate::combination::Combination;
use crate::condition::{Condition, LeafCondition};
use crate::leaf_table::{FALSE, LeafTable, TRUE};
use crate::zielonka_tree::{TreeStep, ZielonkaTree};
use indexmap::IndexSet;
use omega_graph_search::number_of;
use omega_text::Refusal;
use std::alloc::{AllocError, Global};

/// The Zielonka trees of what is left of a condition while the leaves stay in their components.
#[derive(Drop)]
pub(crate) struct Residues {
    // For each tree the component of each leaf, or the truth of the leaf.
    found: IndexSet<Vec<u32>>,
    trees: Vec<ZielonkaTree>,
}

impl Residues {
    /// Returns no trees.
    pub(crate) fn new(alloc: Global) -> Residues {
        Residues {
            found: IndexSet::new(alloc),
            trees: Vec::new(alloc),
        }
    }

    /// Returns the number of the tree for leaves in these states, which is added if it is not there. Fails with
    /// [`omega_text::TaskFault::TooLarge`] if it is too large.
    pub(crate) fn tree_of(
        &mut self,
        alloc: Global,
        nodes: &[Combination],
        tables: &[LeafTable<'_>],
        states: &[u32],
    ) -> Result<u32, Refusal>
        ensures { IfErr result IsLarge }
    {
        let residue = residue(alloc, tables, states)?;
        if let Some(number) = self.found.get_index_of(residue.as_slice()) {
            return Ok(number_of(number));
        }
        let conditions = conditions(alloc, tables, residue.as_slice())?;
        let mut condition = Condition::new(alloc, nodes, conditions);
        self.trees.push(ZielonkaTree::of(alloc, &mut condition)?)?;
        let (number, _new) = self.found.insert_full(residue)?;
        Ok(number_of(number))
    }

    /// Returns the first leaf of a tree.
    pub(crate) fn first_leaf(&self, tree: u32) -> u32 {
        match self.trees.get(tree as usize) {
            Some(tree) => tree.first(),
            None => 0,
        }
    }

    /// Returns the step from a leaf of a tree with these marks. If it leads to another tree, then to its first leaf.
    pub(crate) fn step(&self, tree: u32, leaf: u32, marks: u64, next: u32) -> TreeStep {
        let step = match self.trees.get(tree as usize) {
            Some(tree) => tree.step(leaf, marks),
            None => TreeStep { leaf, colour: 1 },
        };
        if tree == next {
            return step;
        }
        TreeStep {
            leaf: self.first_leaf(next),
            colour: step.colour,
        }
    }
}

/// Returns for each leaf the component of its state, or its truth.
fn residue(
    alloc: Global,
    tables: &[LeafTable<'_>],
    states: &[u32],
) -> Result<Vec<u32>, AllocError> {
    let mut residue = Vec::with_capacity(alloc, tables.len())?;
    for (table, state) in tables.iter().zip(states) {
        let is_known = *state == TRUE || *state == FALSE;
        residue.push(if is_known {
            *state
        } else {
            table.component(*state)
        })?;
    }
    Ok(residue)
}

/// Returns when each leaf accepts that stays in a component, or whose truth is known.
fn conditions(
    alloc: Global,
    tables: &[LeafTable<'_>],
    residue: &[u32],
) -> Result<Vec<LeafCondition>, AllocError> {
    let mut conditions = Vec::with_capacity(alloc, tables.len())?;
    for (table, component) in tables.iter().zip(residue) {
        let is_known = *component == TRUE || *component == FALSE;
        conditions.push(if is_known {
            LeafCondition::Fixed(*component == TRUE)
        } else {
            table.condition(*component)
        })?;
    }
    Ok(conditions)
}
