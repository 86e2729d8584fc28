//! Boolean combinations of leaves, and their truth as far as the leaves' truth is known.
use std::alloc::AllocError;

/// A node of a Boolean combination, in a list of nodes in which operands come before it, by their numbers. The last
/// node is the whole.
#[derive(Clone, Copy, Debug, PartialEq, Eq)]
pub enum Combination {
    /// True or false.
    Constant(bool),
    /// The leaf of a number.
    Leaf(u32),
    /// Not the operand.
    Not(u32),
    /// Both operands.
    And(u32, u32),
    /// One operand at least.
    Or(u32, u32),
    /// Both operands or neither.
    Iff(u32, u32),
}

/// Returns the truth at an index, or none if it is unknown or past the end.
fn truth_at(truths: &[Option<bool>], index: u32) -> Option<bool> {
    truths.get(index as usize).copied().flatten()
}

/// Returns the truth of a node by those of the leaves and of the nodes before it, or none if it is open.
fn truth_of(node: Combination, leaves: &[Option<bool>], before: &[Option<bool>]) -> Option<bool> {
    match node {
        Combination::Constant(value) => Some(value),
        Combination::Leaf(leaf) => truth_at(leaves, leaf),
        Combination::Not(one) => truth_at(before, one).map(|value| !value),
        Combination::And(one, other) => meet(truth_at(before, one), truth_at(before, other), false),
        Combination::Or(one, other) => meet(truth_at(before, one), truth_at(before, other), true),
        Combination::Iff(one, other) => match (truth_at(before, one), truth_at(before, other)) {
            (Some(one), Some(other)) => Some(one == other),
            _ => None,
        },
    }
}

/// Returns `deciding` if one of two values is that, the opposite if both are that, or else none.
fn meet(one: Option<bool>, other: Option<bool>, deciding: bool) -> Option<bool> {
    if one == Some(deciding) || other == Some(deciding) {
        return Some(deciding);
    }
    if one.is_some() && other.is_some() {
        return Some(!deciding);
    }
    None
}

/// Writes the truth of each node by the truth of the leaves, and returns that of the whole.
pub(crate) fn find_truths(
    nodes: &[Combination],
    leaves: &[Option<bool>],
    truths: &mut Vec<Option<bool>>,
) -> Result<Option<bool>, AllocError> {
    truths.clear();
    for node in nodes {
        let truth = truth_of(*node, leaves, truths.as_slice());
        truths.push(truth)?;
    }
    Ok(truths.last().copied().flatten())
}

/// Writes for each node whether the whole, whose truth is open, may depend on it.
pub(crate) fn find_needed(
    nodes: &[Combination],
    truths: &[Option<bool>],
    needed: &mut Vec<bool>,
) -> Result<(), AllocError> {
    needed.clear();
    for _ in nodes {
        needed.push(false)?;
    }
    let count = nodes.len();
    need(needed, count.saturating_sub(1), truths);
    for number in (0..count).rev() {
        let node = match nodes.get(number) {
            Some(node) => *node,
            None => break,
        };
        if needed.get(number).copied() != Some(true) {
            continue;
        }
        match node {
            Combination::Constant(_) | Combination::Leaf(_) => {}
            Combination::Not(one) => need(needed, one as usize, truths),
            Combination::And(one, other)
            | Combination::Or(one, other)
            | Combination::Iff(one, other) => {
                need(needed, one as usize, truths);
                need(needed, other as usize, truths);
            }
        }
    }
    Ok(())
}

/// Marks a node as needed if its truth is open.
fn need(needed: &mut Vec<bool>, number: usize, truths: &[Option<bool>]) {
    let is_open = truths.get(number).copied().flatten().is_none();
    if number < needed.len() && is_open {
        needed[number] = true;
    }
}
