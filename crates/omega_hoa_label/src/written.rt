//! Labels as a text writes them, with parentheses only if an operator needs them.

ghost use Rattle.std.specs.Prelude.{◌≡◌, ◌<◌, ◌≤◌, [], IfErr, IfOk, OnOk};
ghost use Rattle.omega_text.specs.Cases.{IsMemory};
ghost use Rattle.omega_hoa_expression.specs.Depth.{IsDeeper};
ghost use Rattle.omega_hoa_expression.specs.Limits.{most_depth};
ghost use Rattle.omega_hoa_label.specs.Raw.{raw_depth};
ghost use Rattle.omega_hoa_label.specs.Writing.{label_written};
ghost use Rattle.omega_hoa_label.specs.private.layout.Parts.{nodes_before, parts_after, whole_nodes};

use crate::codes::ROOM;
use crate::depth::depth_of;
use crate::grouping::Grouping;
use crate::label::{Label, LabelNode};
use crate::raw::RawLabel;
use omega_hoa_expression::MOST_DEPTH;
use omega_text::{AutomatonFault, Refusal};
use std::alloc::Global;

impl Label {
    /// Returns the label as its canonical text has it, with parentheses only if an operator needs them. Refused with
    /// [AutomatonFault::TooDeep] if that is over 256 deep. Linear in the label, and takes memory only as [`RawLabel`]
    /// does, or for over 24 nodes.
    pub fn canonical_form(&self, alloc: Global) -> Result<RawLabel, Refusal>
        ensures ok { IfOk result (λ raw. raw ≡ label_written self.now) }
        ensures shallow { OnOk result (raw_depth (label_written self.now) ≤ most_depth) }
        ensures err { IfErr result (IsDeeper (most_depth < raw_depth (label_written self.now))) }
    {
        let mut room = ROOM;
        let grouping = grouping_of(alloc, self.nodes(&mut room))?;
        let nodes = grouping.nodes.as_slice();
        let depth = depth_of(alloc, nodes)?;
        if depth > MOST_DEPTH {
            return Err(Refusal::Automaton(AutomatonFault::TooDeep));
        }
        RawLabel::of_nodes(alloc, nodes, &[], depth)
    }
}

/// Returns the nodes of a label as it is written.
fn grouping_of(alloc: Global, nodes: &[LabelNode]) -> Result<Grouping, Refusal>
    ensures ok { IfOk result
        (λ grouping. grouping.nodes.items ≡ nodes_before [] (parts_after [] nodes.now)) }
    ensures err { IfErr result IsMemory }
{
    let mut grouping = Grouping::new(alloc);
    put_all(&mut grouping, nodes)?;
    grouping.turn();
    Ok(grouping)
}

/// Puts `nodes` before the nodes so far, from the last to the first.
fn put_all(grouping: &mut Grouping, nodes: &[LabelNode]) -> Result<(), Refusal>
    ensures ok { OnOk result
        (whole_nodes grouping.new [] ≡ whole_nodes grouping.old (parts_after [] nodes.now)) }
    ensures err { IfErr result IsMemory }
{
    let mut left = nodes;
    while let Some((node, before)) = left.split_last() {
        left = before;
        grouping.put(*node)?;
    }
    Ok(())
}
