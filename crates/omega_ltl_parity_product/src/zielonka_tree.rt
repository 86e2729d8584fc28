ghost use Rattle.std.specs.Prelude.{IfErr};
ghost use Rattle.omega_ltl_determinization.specs.Refusing.{IsLarge};

use crate::condition::Condition;
use crate::limits::{MOST_TREE_NODES, MOST_TREE_SETS};
use indexmap::IndexSet;
use omega_graph_search::{NONE, number_of};
use omega_ltl_determinization::NumberList;
use omega_text::{Refusal, TaskFault};
use std::alloc::{AllocError, Global};

/// The Zielonka tree of a condition on the marks that recur. The label of the root is all marks. The children of a node
/// are labelled by the greatest subsets of its label on which the condition has the other truth value.
#[derive(Drop)]
pub(crate) struct ZielonkaTree {
    labels: Vec<u64>,
    parents: NumberList,
    depths: NumberList,
    // By node its first child, and how many it has. The children of a node follow each other.
    first_children: NumberList,
    child_counts: NumberList,
    is_root_accepting: bool,
}

/// What a step of a word leads to.
#[derive(Clone, Copy)]
pub(crate) struct TreeStep {
    /// The leaf of the tree.
    pub leaf: u32,
    /// The colour of the step: the least that recurs is even if the condition holds.
    pub colour: u32,
}

impl ZielonkaTree {
    /// Returns the tree of a condition. Fails with [`TaskFault::TooLarge`] if it has over [`MOST_TREE_NODES`] nodes, or
    /// if over [`MOST_TREE_SETS`] sets are to be compared for one.
    pub(crate) fn of(alloc: Global, condition: &mut Condition<'_>) -> Result<ZielonkaTree, Refusal>
        ensures { IfErr result IsLarge }
    {
        let all = condition.mask();
        let mut tree = ZielonkaTree {
            labels: Vec::new(alloc),
            parents: NumberList::new(alloc),
            depths: NumberList::new(alloc),
            first_children: NumberList::new(alloc),
            child_counts: NumberList::new(alloc),
            is_root_accepting: condition.holds(all)?,
        };
        tree.add(all, NONE, 0)?;
        // One round more than there may be nodes, in which it is refused.
        for node in 0..=number_of(MOST_TREE_NODES) {
            let label = match tree.labels.get(node as usize) {
                Some(label) => *label,
                None => break,
            };
            tree.add_children(alloc, condition, node, label)?;
        }
        Ok(tree)
    }

    /// Adds a node without children.
    fn add(&mut self, label: u64, parent: u32, depth: u32) -> Result<(), AllocError> {
        self.labels.push(label)?;
        self.parents.push(parent)?;
        self.depths.push(depth)?;
        self.first_children.push(NONE)?;
        self.child_counts.push(0)
    }

    /// Adds the children of a node. Fails with [`TaskFault::TooLarge`] as [`ZielonkaTree::of`] does.
    fn add_children(
        &mut self,
        alloc: Global,
        condition: &mut Condition<'_>,
        node: u32,
        label: u64,
    ) -> Result<(), Refusal>
        ensures { IfErr result IsLarge }
    {
        if self.labels.len() > MOST_TREE_NODES {
            return Err(Refusal::Task(TaskFault::TooLarge));
        }
        let children = greatest_opposites(alloc, condition, label)?;
        let depth = self.depths.at(node).saturating_add(1);
        self.first_children.put(node, number_of(self.labels.len()));
        self.child_counts.put(node, number_of(children.len()));
        for child in &children {
            self.add(*child, node, depth)?;
        }
        Ok(())
    }

    /// Returns the leaf below a node that is come to by first children.
    fn first_leaf(&self, node: u32) -> u32 {
        let mut leaf = node;
        // A child has a greater number than its parent.
        for _ in 0..self.labels.len() {
            if self.child_counts.at(leaf) == 0 {
                break;
            }
            leaf = self.first_children.at(leaf);
        }
        leaf
    }

    /// Returns the leaf in which words begin.
    pub(crate) fn first(&self) -> u32 {
        self.first_leaf(0)
    }

    /// Returns the step from a leaf with these marks (Casares, Colcombet, Fijalkow 2021): up to the first node whose
    /// label has them, of whose depth the colour is, and from there down by the child after that passed.
    pub(crate) fn step(&self, leaf: u32, marks: u64) -> TreeStep {
        let wanted = marks & self.label(0);
        let mut node = leaf;
        let mut passed = NONE;
        for _ in 0..self.labels.len() {
            if wanted & !self.label(node) == 0 {
                break;
            }
            passed = node;
            node = self.parents.at(node);
        }
        let above = if self.is_root_accepting { 0 } else { 1 };
        let colour = self.depths.at(node).saturating_add(above);
        if passed == NONE {
            return TreeStep { leaf, colour };
        }
        let first = self.first_children.at(node);
        let after = passed.wrapping_add(1);
        let has_more = after.wrapping_sub(first) < self.child_counts.at(node);
        let child = if has_more { after } else { first };
        TreeStep {
            leaf: self.first_leaf(child),
            colour,
        }
    }

    /// Returns the label of a node, or no marks if there is no such node.
    fn label(&self, node: u32) -> u64 {
        self.labels.get(node as usize).copied().unwrap_or(0)
    }
}

/// Returns the greatest subsets of `label` on which the condition has another truth value than on `label`. Fails with
/// [`TaskFault::TooLarge`] if over [`MOST_TREE_SETS`] sets are to be compared.
fn greatest_opposites(
    alloc: Global,
    condition: &mut Condition<'_>,
    label: u64,
) -> Result<Vec<u64>, Refusal>
    ensures { IfErr result IsLarge }
{
    let value = condition.holds(label)?;
    let mut opposites = Vec::new(alloc);
    let mut level = IndexSet::new(alloc);
    level.insert_full(label)?;
    // In each round the sets have one mark less.
    for _ in 0..64u32 {
        let mut next = IndexSet::new(alloc);
        for set in level.iter() {
            add_opposites(condition, *set, value, &mut opposites, &mut next)?;
            if next.len() > MOST_TREE_SETS {
                return Err(Refusal::Task(TaskFault::TooLarge));
            }
        }
        level = next;
    }
    Ok(opposites)
}

/// Removes each mark from a set: where the condition then has another value than `value`, the rest is an opposite, or
/// else a set whose subsets come next. Subsets of opposites are left out.
fn add_opposites(
    condition: &mut Condition<'_>,
    set: u64,
    value: bool,
    opposites: &mut Vec<u64>,
    next: &mut IndexSet<u64>,
) -> Result<(), AllocError> {
    for mark in 0..64u32 {
        let rest = set & !(1u64 << mark);
        if rest == set || opposites.iter().any(|opposite| rest & !*opposite == 0) {
            continue;
        }
        if condition.holds(rest)? != value {
            opposites.push(rest)?;
        } else {
            next.insert_full(rest)?;
        }
    }
    Ok(())
}
