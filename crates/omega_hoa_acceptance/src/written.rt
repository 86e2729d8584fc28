//! Formulas as their canonical text has them, with parentheses only if an operator needs them.

ghost use Rattle.std.specs.Prelude.{◌≡◌, ◌<◌, ◌++◌, [], reverse, IfErr, IfOk, OnOk};
ghost use Rattle.omega_text.specs.Cases.{IsMemory};
ghost use Rattle.omega_hoa_expression.specs.Depth.{IsDeeper};
ghost use Rattle.omega_hoa_expression.specs.Depths.{depths_below, top_depth};
ghost use Rattle.omega_hoa_expression.specs.Limits.{most_depth};
ghost use Rattle.omega_hoa_acceptance.specs.Raw.{raw_acc_depth};
ghost use Rattle.omega_hoa_acceptance.specs.Writing.{acc_written};
ghost use Rattle.omega_hoa_acceptance.specs.private.layout.Written.{closing as closing_nodes, node_name};
ghost use Rattle.omega_hoa_acceptance.specs.private.layout.Written.{node_names, node_rank, ranks_after};
ghost use Rattle.omega_hoa_acceptance.specs.private.layout.Written.{raw_depths_after, raw_node, written_back};
ghost use Rattle.omega_hoa_acceptance.specs.private.layout.Written.{written_node};

use crate::formula::{Acc, AccNode};
use crate::raw::{RawAcc, RawAccNode};
use omega_hoa_expression::{Depths, MOST_DEPTH, counted_deeper};
use omega_text::{AutomatonFault, Refusal};
use std::alloc::Global;

impl Acc {
    /// Returns the formula as its canonical text has it. Refused with [AutomatonFault::TooDeep] if that is over 256
    /// deep, as parentheses count. Linear in the formula, without recursion.
    pub fn canonical_form(&self, alloc: Global) -> Result<RawAcc, Refusal>
        ensures ok { IfOk result (λ raw. raw ≡ acc_written self.now) }
        ensures err { IfErr result (IsDeeper (most_depth < raw_acc_depth (acc_written self.now))) }
    {
        let nodes = written_nodes(alloc, self.nodes())?;
        let depth = written_depth(alloc, nodes.as_slice())?;
        if depth > MOST_DEPTH {
            return Err(Refusal::Automaton(AutomatonFault::TooDeep));
        }
        let names = written_names(alloc, self.nodes())?;
        Ok(RawAcc::of_nodes(nodes, names, depth))
    }
}

/// Returns `nodes` in postfix order with those of the parentheses that they need. Goes from the last node to the first,
/// since only an operator says what its parts need.
fn written_nodes(alloc: Global, nodes: &[AccNode]) -> Result<Vec<RawAccNode>, Refusal>
    ensures ok { IfOk result
        (λ written. written.items ≡ reverse (written_back [] (reverse nodes.now))) }
    ensures err { IfErr result IsMemory }
{
    let mut written = Vec::with_capacity(alloc, nodes.len())?;
    put_backward(alloc, nodes, &mut written)?;
    written.as_mut_slice().reverse();
    Ok(written)
}

/// Appends `nodes` as they are written, from the last to the first.
fn put_backward(
    alloc: Global,
    nodes: &[AccNode],
    written: &mut Vec<RawAccNode>,
) -> Result<(), Refusal>
    ensures ok { OnOk result
        (written.new.items ≡ written.old.items ++ written_back [] (reverse nodes.now)) }
    ensures err { IfErr result IsMemory }
{
    // How tightly each part that is pending has to bind to need no parentheses.
    let mut ranks = Depths::new(alloc);
    let mut left = nodes;
    while let Some((node, before)) = left.split_last() {
        left = before;
        put_written(*node, ranks.pop(), written)?;
        ask_parts(*node, &mut ranks)?;
    }
    Ok(())
}

/// Appends `node` as it is written, after the node of the parentheses that its formula needs unless it binds as tightly
/// as `rank`.
fn put_written(node: AccNode, rank: u32, written: &mut Vec<RawAccNode>) -> Result<(), Refusal>
    ensures ok { OnOk result (written.new.items ≡ written.old.items ++ written_node rank node) }
    ensures err { IfErr result IsMemory }
{
    if rank_of(node) < rank {
        written.push(RawAccNode::Group)?;
    }
    written.push(raw_node(node))?;
    Ok(())
}

/// Pushes how tightly the parts of `node` have to bind to need no parentheses, the right one on top.
fn ask_parts(node: AccNode, ranks: &mut Depths) -> Result<(), Refusal>
    ensures ok { OnOk result (ranks.new ≡ ranks_after node ranks.old) }
    ensures err { IfErr result IsMemory }
{
    match node {
        AccNode::And => {
            ranks.push(2)?;
            ranks.push(3)
        }
        AccNode::Or => {
            ranks.push(1)?;
            ranks.push(2)
        }
        _ => Ok(()),
    }
}

/// Returns how tightly the operator of `node` binds: 1 for `|`, 2 for `&`, 3 for the rest.
fn rank_of(node: AccNode) -> u32
    ensures { result ≡ node_rank node }
{
    match node {
        AccNode::Or => 1,
        AccNode::And => 2,
        _ => 3,
    }
}

/// Returns `node` as it is written.
fn raw_node(node: AccNode) -> RawAccNode
    ensures { result ≡ raw_node node }
{
    match node {
        AccNode::Constant(value) => RawAccNode::Constant(value),
        AccNode::Inf(negated, set) => RawAccNode::Atom(3, negated, set),
        AccNode::Fin(negated, set) => RawAccNode::Atom(3, negated, set),
        AccNode::And => RawAccNode::And,
        AccNode::Or => RawAccNode::Or,
    }
}

/// Returns the names of the atoms of `nodes`, joined.
fn written_names(alloc: Global, nodes: &[AccNode]) -> Result<Vec<u8>, Refusal>
    ensures ok { IfOk result (λ names. names.items ≡ node_names nodes.now) }
    ensures err { IfErr result IsMemory }
{
    let mut names = Vec::new(alloc);
    for node in nodes {
        names.extend_from_slice(name_of(*node))?;
    }
    Ok(names)
}

/// Returns the name of the atom of `node`, or nothing if it has none.
fn name_of(node: AccNode) -> &'static [u8]
    ensures { result.now ≡ node_name node }
{
    match node {
        AccNode::Inf(_, _) => b"Inf",
        AccNode::Fin(_, _) => b"Fin",
        _ => b"",
    }
}

/// Returns the depth of `nodes`, which are in postfix order, counted up to 257.
fn written_depth(alloc: Global, nodes: &[RawAccNode]) -> Result<u32, Refusal>
    ensures ok { IfOk result (λ depth. depth ≡ top_depth (raw_depths_after [] nodes.now)) }
    ensures err { IfErr result IsMemory }
{
    let mut depths = Depths::new(alloc);
    for node in nodes {
        let depth = match node {
            RawAccNode::And | RawAccNode::Or => {
                let right = depths.pop();
                counted_deeper(depths.pop().max(right))
            }
            RawAccNode::Group => counted_deeper(depths.pop()),
            _ => 1,
        };
        depths.push(depth)?;
    }
    Ok(depths.pop())
}
