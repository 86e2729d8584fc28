//! The depth of nodes in postfix order.

ghost use Rattle.std.specs.Prelude.{◌≡◌, ◌<◌, ◌≤◌, [], IfErr, IfOk, OnOk};
ghost use Rattle.omega_text.specs.Cases.{IsMemory};
ghost use Rattle.omega_hoa_expression.specs.Depth.{IsDeeper};
ghost use Rattle.omega_hoa_expression.specs.Depths.{top_depth};
ghost use Rattle.omega_hoa_expression.specs.Limits.{most_depth};
ghost use Rattle.omega_hoa_label.specs.Label.{LabelTree, label_depth};
ghost use Rattle.omega_hoa_label.specs.Postfix.{postfix};
ghost use Rattle.omega_hoa_label.specs.private.layout.Depths.{depths_after};

use crate::label::LabelNode;
use omega_hoa_expression::{Depths, MOST_DEPTH, counted_deeper};
use omega_text::{AutomatonFault, Refusal};
use std::alloc::Global;

/// Returns the depth of `nodes`, counted up to 257.
pub(crate) fn depth_of(alloc: Global, nodes: &[LabelNode]) -> Result<u32, Refusal>
    ensures ok { IfOk result (λ depth. depth ≡ top_depth (depths_after [] nodes.now)) }
    ensures err { IfErr result IsMemory }
{
    let mut depths = Depths::new(alloc);
    for node in nodes {
        let depth = match node {
            LabelNode::And | LabelNode::Or => {
                let right = depths.pop();
                counted_deeper(depths.pop().max(right))
            }
            LabelNode::Not | LabelNode::Group => counted_deeper(depths.pop()),
            LabelNode::Constant(_) | LabelNode::Proposition(_) | LabelNode::Alias(_) => 1,
        };
        depths.push(depth)?;
    }
    Ok(depths.pop())
}

/// Judges the depth of the label of `nodes`. Refused with [AutomatonFault::TooDeep] if it is over 256. A label with at
/// most so many nodes, as most are, needs no counting.
pub(crate) fn judge_depth(alloc: Global, nodes: &[LabelNode]) -> Result<(), Refusal>
    ensures shallow { OnOk result
        ((tree : LabelTree) → nodes.now ≡ postfix tree → label_depth tree ≤ most_depth) }
    ensures err { IfErr result (λ refusal. (tree : LabelTree) →
        nodes.now ≡ postfix tree → IsDeeper (most_depth < label_depth tree) refusal) }
{
    if nodes.len() <= MOST_DEPTH as usize {
        return Ok(());
    }
    if depth_of(alloc, nodes)? > MOST_DEPTH {
        return Err(Refusal::Automaton(AutomatonFault::TooDeep));
    }
    Ok(())
}
