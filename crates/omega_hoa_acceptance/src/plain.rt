//! Acceptance formulas without their parentheses.

ghost use Rattle.std.specs.Prelude.{◌≡◌, [], Some, None, IfErr, IfOk};
ghost use Rattle.omega_text.specs.Cases.{IsMemory};
ghost use Rattle.omega_hoa_expression.specs.Depths.{top_depth};
ghost use Rattle.omega_hoa_acceptance.specs.private.layout.Plain.{atom_plain, depths_after, plain_nodes};
ghost use Rattle.omega_hoa_acceptance.specs.private.layout.Raw.{atom_names, raw_acc_postfix};
ghost use Rattle.omega_text.specs.Cases.{never, or_automaton, or_memory};
ghost use Rattle.omega_text.specs.declared.refusal.automaton.AutomatonFault.TheVariants.{AcceptanceAtom};

use crate::formula::AccNode;
use crate::raw::{RawAcc, RawAccNode};
use omega_hoa_expression::{Depths, bytes_after, counted_deeper, first_bytes};
use omega_text::{AutomatonFault, Refusal};
use std::alloc::Global;

/// Returns the nodes of the formula `raw` without its parentheses. Refused with [AutomatonFault::AcceptanceAtom] if an
/// atom is neither `Fin` nor `Inf`.
pub(crate) fn nodes_of(alloc: Global, raw: &RawAcc) -> Result<Vec<AccNode>, Refusal>
    ensures ok { IfOk result
        (λ nodes. plain_nodes (atom_names raw.now) (raw_acc_postfix raw.now) ≡ Some nodes.items) }
    ensures err { IfErr result (or_automaton (λ fault. (fault ≡ AcceptanceAtom) ×
        (plain_nodes (atom_names raw.now) (raw_acc_postfix raw.now) ≡ None)) (or_memory never)) }
{
    let mut nodes = Vec::new(alloc);
    let mut names = raw.names();
    for node in raw.nodes() {
        match node {
            RawAccNode::Constant(value) => nodes.push(AccNode::Constant(*value))?,
            RawAccNode::And => nodes.push(AccNode::And)?,
            RawAccNode::Or => nodes.push(AccNode::Or)?,
            RawAccNode::Group => {}
            RawAccNode::Atom(count, negated, set) => {
                let Some(plain) = atom(first_bytes(names, *count), *negated, *set) else {
                    return Err(Refusal::Automaton(AutomatonFault::AcceptanceAtom));
                };
                names = bytes_after(names, *count);
                nodes.push(plain)?;
            }
        }
    }
    Ok(nodes)
}

/// Returns the node of an atom, or none if `name` is neither `Inf` nor `Fin`.
fn atom(name: &[u8], negated: bool, set: u32) -> Option<AccNode>
    ensures { result ≡ atom_plain name.now negated set }
{
    if name == b"Inf".as_slice() {
        Some(AccNode::Inf(negated, set))
    } else if name == b"Fin".as_slice() {
        Some(AccNode::Fin(negated, set))
    } else {
        None
    }
}

/// Returns the depth of `nodes`, which are in postfix order, counted up to 257.
pub(crate) fn depth_of(alloc: Global, nodes: &[AccNode]) -> Result<u32, Refusal>
    ensures ok { IfOk result (λ depth. depth ≡ top_depth (depths_after [] nodes.now)) }
    ensures err { IfErr result IsMemory }
{
    let mut depths = Depths::new(alloc);
    for node in nodes {
        let depth = match node {
            AccNode::And | AccNode::Or => {
                let right = depths.pop();
                counted_deeper(depths.pop().max(right))
            }
            _ => 1,
        };
        depths.push(depth)?;
    }
    Ok(depths.pop())
}
