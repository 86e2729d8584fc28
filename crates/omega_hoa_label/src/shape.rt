//! Labels as trees of boxes, to take them apart and to put them together.

ghost use Rattle.std.specs.Prelude.{◌≡◌, ◌+◌, ◌<◌, ◌≤◌, ◌++◌, ◌∷◌, [], IfErr, IfOk, OnOk};
ghost use Rattle.omega_hoa_expression.specs.Depth.{IsDeeper};
ghost use Rattle.omega_text.specs.Cases.{IsMemory};
ghost use Rattle.omega_hoa_expression.specs.Limits.{most_depth};
ghost use Rattle.omega_hoa_label.specs.Label.{label_depth};
ghost use Rattle.omega_hoa_label.specs.Shape.{FitsALabel, IsOversized, label_tree_of_shape};
ghost use Rattle.omega_hoa_label.specs.Postfix.{postfix};
ghost use Rattle.omega_hoa_label.specs.private.layout.Label.{tree_of};

use crate::codes::ROOM;
use crate::label::{Label, LabelNode};
use crate::shapes::LabelShapes;
use omega_hoa_expression::{MOST_DEPTH, MOST_SIZE};
use omega_text::{AutomatonFault, Refusal};
use std::alloc::Global;

/// A label as a tree, whose parts are boxed.
///
/// It may be of any depth, while [`Label`] has at most 256. Comparing, printing and dropping it recurse as deep as it
/// is.
#[derive(Debug, PartialEq, Eq, Drop)]
pub enum LabelShape {
    Constant(bool),
    Proposition(u32),
    Not(Box<LabelShape>),
    And(Box<LabelShape>, Box<LabelShape>),
    Or(Box<LabelShape>, Box<LabelShape>),
}

impl Label {
    /// Returns the label as a tree of boxes, at most 256 deep. Linear in the label, without recursion.
    pub fn shape(&self, alloc: Global) -> Result<LabelShape, Refusal>
        ensures ok { IfOk result (λ shape. label_tree_of_shape shape ≡ self.now) }
        ensures shallow { label_depth self.now ≤ most_depth }
        ensures err { IfErr result IsMemory }
    {
        let mut room = ROOM;
        shape_of(alloc, self.nodes(&mut room))
    }

    /// Makes the label of a tree of boxes. Refused with [AutomatonFault::TooDeep] if it is over 256 deep, else with
    /// [AutomatonFault::Expansion] if it has over 65,536 atoms and operators.
    ///
    /// Linear in the tree, and recurses no deeper than 257.
    pub fn of_shape(alloc: Global, shape: &LabelShape) -> Result<Label, Refusal>
        ensures ok { IfOk result (λ label. label ≡ label_tree_of_shape shape.now) }
        ensures fits { IfOk result FitsALabel }
        ensures err { IfErr result (IsOversized (label_tree_of_shape shape.now)) }
    {
        let mut nodes = Vec::new(alloc);
        put_nodes(shape, 0, &mut nodes)?;
        if nodes.len() > MOST_SIZE as usize {
            return Err(Refusal::Automaton(AutomatonFault::Expansion));
        }
        Label::from_postfix(alloc, nodes)
    }
}

/// Makes the tree of `nodes` in postfix order.
fn shape_of(alloc: Global, nodes: &[LabelNode]) -> Result<LabelShape, Refusal>
    ensures ok { IfOk result (λ shape. label_tree_of_shape shape ≡ tree_of nodes.now) }
    ensures err { IfErr result IsMemory }
{
    let mut shapes = LabelShapes::new(alloc);
    for node in nodes {
        match node {
            LabelNode::Constant(value) => shapes.push(LabelShape::Constant(*value))?,
            LabelNode::Proposition(number) => shapes.push(LabelShape::Proposition(*number))?,
            LabelNode::Not => shapes.negate()?,
            LabelNode::And => shapes.join_by_and()?,
            LabelNode::Or => shapes.join_by_or()?,
            LabelNode::Alias(_) | LabelNode::Group => {}
        }
    }
    Ok(shapes.pop())
}

/// Appends the nodes of `shape`, which is `above` deep below the root. Refused if it goes past the depth's limit.
fn put_nodes(shape: &LabelShape, above: u32, nodes: &mut Vec<LabelNode>) -> Result<(), Refusal>
    requires { above ≤ most_depth }
    ensures shallow { OnOk result (above + label_depth (label_tree_of_shape shape.now) ≤ most_depth) }
    ensures nodes { OnOk result
        (nodes.new.items ≡ nodes.old.items ++ postfix (label_tree_of_shape shape.now)) }
    ensures err { IfErr result
        (IsDeeper (most_depth < above + label_depth (label_tree_of_shape shape.now))) }
{
    if above == MOST_DEPTH {
        return Err(Refusal::Automaton(AutomatonFault::TooDeep));
    }
    match shape {
        LabelShape::Constant(value) => put_node(LabelNode::Constant(*value), nodes),
        LabelShape::Proposition(number) => put_node(LabelNode::Proposition(*number), nodes),
        LabelShape::Not(part) => {
            put_nodes(part, above + 1, nodes)?;
            put_node(LabelNode::Not, nodes)
        }
        LabelShape::And(left, right) => {
            put_nodes(left, above + 1, nodes)?;
            put_nodes(right, above + 1, nodes)?;
            put_node(LabelNode::And, nodes)
        }
        LabelShape::Or(left, right) => {
            put_nodes(left, above + 1, nodes)?;
            put_nodes(right, above + 1, nodes)?;
            put_node(LabelNode::Or, nodes)
        }
    }
}

/// Appends `node`.
fn put_node(node: LabelNode, nodes: &mut Vec<LabelNode>) -> Result<(), Refusal>
    ensures ok { OnOk result (nodes.new.items ≡ nodes.old.items ++ node ∷ []) }
    ensures err { IfErr result IsMemory }
{
    nodes.push(node)?;
    Ok(())
}
