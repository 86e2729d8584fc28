ghost use Rattle.std.specs.Prelude.{◌≡◌, ◌∷◌, ◌++◌, [], List, nat_lt, reverse, IfErr, OnOk};
ghost use Rattle.omega_text.specs.Cases.{IsMemory};
ghost use Rattle.omega_hoa_expression.specs.Depths.{depths_below, top_depth};
ghost use Rattle.omega_hoa_label.specs.private.layout.Parts.{Part, nodes_before, part_with};
ghost use Rattle.omega_hoa_label.specs.private.layout.Parts.{whole_nodes, within};

use crate::label::LabelNode;
use omega_hoa_expression::Depths;
use omega_text::Refusal;
use smallvec::SmallVec;
use std::alloc::Global;

/// A label as it is written, made from its last node to its first. Whether a part needs parentheses is known at its
/// operator, which comes before it.
///
/// Up to 24 nodes take no memory.
#[derive(Drop)]
pub(crate) struct Grouping {
    /// The nodes so far, the last first.
    pub(crate) nodes: SmallVec<LabelNode, 24>,
    /// How tightly the parts that come have to bind to need no parentheses, the next on top: 1 for `|`, 2 for `&`, 3
    /// for the rest.
    wanted: Depths,
}

impl Grouping {
    /// Makes a label without any part.
    pub(crate) fn new(alloc: Global) -> Self
        ensures { (parts : List Part) → whole_nodes result parts ≡ nodes_before [] parts }
    {
        Grouping {
            nodes: SmallVec::new(alloc),
            wanted: Depths::new(alloc),
        }
    }

    /// Puts `node` before the nodes so far.
    pub(crate) fn put(&mut self, node: LabelNode) -> Result<(), Refusal>
        ensures ok { OnOk result ((parts : List Part) →
            whole_nodes self.new parts ≡ whole_nodes self.old (part_with parts node)) }
        ensures err { IfErr result IsMemory }
    {
        match node {
            LabelNode::Constant(_) | LabelNode::Proposition(_) => self.begin(node, 3),
            LabelNode::Not => {
                self.begin(node, 3)?;
                self.wanted.push(3)
            }
            LabelNode::And => {
                self.begin(node, 2)?;
                self.wanted.push(2)?;
                self.wanted.push(3)
            }
            LabelNode::Or => {
                self.begin(node, 1)?;
                self.wanted.push(1)?;
                self.wanted.push(2)
            }
            LabelNode::Alias(_) | LabelNode::Group => Ok(()),
        }
    }

    /// Puts the last node of a part, which binds as tightly as `rank`, and parentheses after it if it needs them.
    fn begin(&mut self, node: LabelNode, rank: u32) -> Result<(), Refusal>
        ensures nodes { OnOk result (reverse self.new.nodes.items ≡ node
            ∷ within (nat_lt rank (top_depth self.old.wanted)) [] ++ reverse self.old.nodes.items) }
        ensures wanted { OnOk result (self.new.wanted ≡ depths_below self.old.wanted) }
        ensures err { IfErr result IsMemory }
    {
        if rank < self.wanted.pop() {
            self.nodes.push(LabelNode::Group)?;
        }
        self.nodes.push(node)?;
        Ok(())
    }

    /// Turns the nodes, of which none comes any more, so that the first is first.
    pub(crate) fn turn(&mut self)
        ensures { self.new.nodes.items ≡ whole_nodes self.old [] }
    {
        self.nodes.as_mut_slice().reverse();
    }
}
