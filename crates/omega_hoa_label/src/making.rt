//! Labels put together from others, without recursion.

ghost use Rattle.std.specs.Prelude.{◌≡◌, ◌<◌, ◌≤◌, IfErr, IfOk, OnOk, map};
ghost use Rattle.omega_text.specs.Cases.{IsMemory};
ghost use Rattle.omega_hoa_expression.specs.Depth.{IsDeeper};
ghost use Rattle.omega_hoa_expression.specs.Limits.{most_depth};
ghost use Rattle.omega_hoa_label.specs.Label.{LabelTree, conjunction, label_depth};
ghost use Rattle.omega_hoa_label.specs.Postfix.{IsInPostfix, postfix};
ghost use Rattle.omega_hoa_label.specs.Renumbering.{number_among as number_of, relabelled};
ghost use Rattle.omega_hoa_label.specs.private.layout.Moving.{moved_node};

use crate::codes::ROOM;
use crate::depth::judge_depth;
use crate::label::{Label, LabelNode};
use crate::nodes::LabelNodes;
use omega_text::Refusal;
use std::alloc::Global;

impl Label {
    /// Copies the label.
    pub fn copy_in(&self, alloc: Global) -> Result<Label, Refusal>
        ensures ok { IfOk result (λ label. label ≡ self.now) }
        ensures err { IfErr result IsMemory }
    {
        let mut room = ROOM;
        Label::of_slice(alloc, self.nodes(&mut room))
    }

    /// Makes the label of `nodes` in postfix order. Refused with [AutomatonFault::TooDeep] if it is over 256 deep.
    /// Linear in the nodes.
    pub fn of_postfix(alloc: Global, nodes: &LabelNodes) -> Result<Label, Refusal>
        requires { IsInPostfix nodes.now }
        ensures ok { IfOk result
            (λ label. (tree : LabelTree) → nodes.now ≡ postfix tree → label ≡ tree) }
        ensures shallow { OnOk result
            ((tree : LabelTree) → nodes.now ≡ postfix tree → label_depth tree ≤ most_depth) }
        ensures err { IfErr result (λ refusal. (tree : LabelTree) →
            nodes.now ≡ postfix tree → IsDeeper (most_depth < label_depth tree) refusal) }
    {
        let nodes = nodes.as_slice();
        judge_depth(alloc, nodes)?;
        Label::of_slice(alloc, nodes)
    }

    /// Joins two labels by `&`. Refused with [AutomatonFault::TooDeep] if the result would be over 256 deep. Linear in
    /// both, and takes memory only as [`Label`] does, or for over 24 nodes.
    pub fn conjunction(alloc: Global, one: &Label, other: &Label) -> Result<Label, Refusal>
        ensures ok { IfOk result (λ label. label ≡ conjunction one.now other.now) }
        ensures shallow { OnOk result (label_depth (conjunction one.now other.now) ≤ most_depth) }
        ensures err { IfErr result
            (IsDeeper (most_depth < label_depth (conjunction one.now other.now))) }
    {
        let mut nodes = LabelNodes::new(alloc);
        nodes.append(one)?;
        nodes.append(other)?;
        nodes.push(LabelNode::And)?;
        Label::of_postfix(alloc, &nodes)
    }

    /// Restates the label over other propositions. `places` gives the number of each there, which is 0 for those
    /// beyond. Linear in the label, and takes memory as [`conjunction`](Label::conjunction) does.
    pub fn over_propositions(&self, alloc: Global, places: &[u32]) -> Result<Label, Refusal>
        ensures ok { IfOk result (λ label. label ≡ relabelled places.now self.now) }
        ensures err { IfErr result IsMemory }
    {
        if let Some(moved) = self.over_propositions_in_place(places) {
            return Ok(moved);
        }
        let mut room = ROOM;
        let nodes = nodes_over_propositions(alloc, self.nodes(&mut room), places)?;
        Label::of_slice(alloc, nodes.as_slice())
    }
}

/// Returns `nodes` over other propositions, whose numbers `places` gives.
fn nodes_over_propositions(
    alloc: Global,
    nodes: &[LabelNode],
    places: &[u32],
) -> Result<LabelNodes, Refusal>
    ensures ok { IfOk result (λ moved. moved ≡ map (moved_node places.now) nodes.now) }
    ensures err { IfErr result IsMemory }
{
    let mut moved = LabelNodes::new(alloc);
    for node in nodes {
        moved.push(node_over_propositions(*node, places))?;
    }
    Ok(moved)
}

/// Returns `node` over other propositions, whose numbers `places` gives.
pub(crate) fn node_over_propositions(node: LabelNode, places: &[u32]) -> LabelNode
    ensures { result ≡ moved_node places.now node }
{
    match node {
        LabelNode::Proposition(number) => {
            LabelNode::Proposition(number_among(places, number as usize))
        }
        other => other,
    }
}

/// Returns the number of the proposition `number` among others.
fn number_among(places: &[u32], number: usize) -> u32
    ensures { result ≡ number_of places.now number }
{
    places.get(number).copied().unwrap_or(0)
}
