//! Formulas that are made of another by a pass over its nodes.

ghost use Rattle.std.specs.Prelude.{◌≡◌, map, IfErr, IfOk, IsOkUnless};
ghost use Rattle.omega_text.specs.Cases.{IsMemory};
ghost use Rattle.omega_hoa_acceptance.specs.Dual.{dual};
ghost use Rattle.omega_hoa_acceptance.specs.Moving.{moved_after};
ghost use Rattle.omega_hoa_acceptance.specs.private.layout.Rewriting.{dual_node, moved_node};

use crate::formula::{Acc, AccNode};
use omega_text::Refusal;
use std::alloc::Global;

impl Acc {
    /// Returns a copy of the formula, in one allocation.
    pub fn copy_in(&self, alloc: Global) -> Result<Acc, Refusal>
        ensures ok { IfOk result (λ formula. formula ≡ self.now) }
        ensures err { IfErr result IsMemory }
    {
        let nodes = Vec::from_slice(alloc, self.nodes())?;
        Ok(Acc::of_nodes(nodes, self.depth()))
    }

    /// Returns the dual of the formula, which holds exactly if the formula does not. Linear in the formula, in one
    /// allocation, without recursion.
    pub fn dual(&self, alloc: Global) -> Result<Acc, Refusal>
        ensures ok { IfOk result (λ formula. formula ≡ dual self.now) }
        ensures err { IfErr result IsMemory }
    {
        let nodes = dual_nodes(alloc, self.nodes())?;
        Ok(Acc::of_nodes(nodes, self.depth()))
    }

    /// Returns the formula with `before` added to the number of each set. Also fails with [Refusal::Memory] if a number
    /// does not fit into a `u32`. Linear in the formula, in one allocation, without recursion.
    pub fn moved_after(&self, alloc: Global, before: u32) -> Result<Acc, Refusal>
        ensures ok { IfOk result (λ formula. formula ≡ moved_after before self.now) }
        ensures err { IfErr result IsMemory }
    {
        let nodes = moved_nodes(alloc, self.nodes(), before)?;
        Ok(Acc::of_nodes(nodes, self.depth()))
    }
}

/// Returns the nodes of the dual.
fn dual_nodes(alloc: Global, nodes: &[AccNode]) -> Result<Vec<AccNode>, Refusal>
    ensures ok { IfOk result (λ duals. duals.items ≡ map dual_node nodes.now) }
    ensures err { IfErr result IsMemory }
{
    let mut duals = Vec::with_capacity(alloc, nodes.len())?;
    for node in nodes {
        duals.push(dual_node(*node))?;
    }
    Ok(duals)
}

/// Returns the node of the dual in place of `node`.
fn dual_node(node: AccNode) -> AccNode
    ensures { result ≡ dual_node node }
{
    match node {
        AccNode::Constant(value) => AccNode::Constant(!value),
        AccNode::Inf(negated, set) => AccNode::Fin(negated, set),
        AccNode::Fin(negated, set) => AccNode::Inf(negated, set),
        AccNode::And => AccNode::Or,
        AccNode::Or => AccNode::And,
    }
}

/// Returns the nodes with `before` added to the number of each set.
fn moved_nodes(alloc: Global, nodes: &[AccNode], before: u32) -> Result<Vec<AccNode>, Refusal>
    ensures ok { IfOk result (λ moved. moved.items ≡ map (moved_node before) nodes.now) }
    ensures err { IfErr result IsMemory }
{
    let mut moved = Vec::with_capacity(alloc, nodes.len())?;
    for node in nodes {
        let next = moved_node(*node, before)?;
        moved.push(next)?;
    }
    Ok(moved)
}

/// Returns `node` with `before` added to the number of its set.
fn moved_node(node: AccNode, before: u32) -> Result<AccNode, Refusal>
    ensures ok { IfOk result (λ moved. moved ≡ moved_node before node) }
    ensures err { IfErr result IsMemory }
{
    match node {
        AccNode::Inf(negated, set) => match before.checked_add(set) {
            Some(number) => Ok(AccNode::Inf(negated, number)),
            None => Err(Refusal::Memory),
        },
        AccNode::Fin(negated, set) => match before.checked_add(set) {
            Some(number) => Ok(AccNode::Fin(negated, number)),
            None => Err(Refusal::Memory),
        },
        other => Ok(other),
    }
}
