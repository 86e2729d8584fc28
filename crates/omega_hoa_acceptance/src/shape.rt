//! Acceptance formulas as trees of boxes, to take them apart and to put them together.

ghost use Rattle.std.specs.Prelude.{◌≡◌, ◌+◌, ◌<◌, ◌≤◌, ◌++◌, ◌∷◌, [], IfErr, IfOk, OnOk};
ghost use Rattle.omega_hoa_expression.specs.Depth.{IsDeeper};
ghost use Rattle.omega_text.specs.Cases.{IsMemory};
ghost use Rattle.omega_hoa_expression.specs.Limits.{most_depth};
ghost use Rattle.omega_hoa_acceptance.specs.Acceptance.{acc_depth};
ghost use Rattle.omega_hoa_acceptance.specs.Shape.{acc_tree_of_shape};
ghost use Rattle.omega_hoa_acceptance.specs.private.layout.Acceptance.{acc_postfix, acc_tree_of};

use crate::formula::{Acc, AccNode};
use crate::shapes::AccShapes;
use omega_hoa_expression::MOST_DEPTH;
use omega_text::{AutomatonFault, Refusal};
use std::alloc::Global;

/// An acceptance formula as a tree, whose parts are boxed. The truth value of an atom says whether `!` precedes its
/// set.
///
/// It may be of any depth, while [`Acc`] has at most 256. Comparing, printing and dropping it recurse as deep as it is.
#[derive(Debug, PartialEq, Eq, Drop)]
pub enum AccShape {
    Constant(bool),
    Inf(bool, u32),
    Fin(bool, u32),
    And(Box<AccShape>, Box<AccShape>),
    Or(Box<AccShape>, Box<AccShape>),
}

impl Acc {
    /// Returns the formula as a tree of boxes, at most 256 deep. Linear in the formula, without recursion.
    pub fn shape(&self, alloc: Global) -> Result<AccShape, Refusal>
        ensures ok { IfOk result (λ shape. acc_tree_of_shape shape ≡ self.now) }
        ensures shallow { acc_depth self.now ≤ most_depth }
        ensures err { IfErr result IsMemory }
    {
        shape_of(alloc, self.nodes.as_slice())
    }

    /// Makes the formula of a tree of boxes. Refused with [AutomatonFault::TooDeep] if it is over 256 deep.
    ///
    /// Linear in the tree, and recurses no deeper than 257.
    pub fn of_shape(alloc: Global, shape: &AccShape) -> Result<Acc, Refusal>
        ensures ok { IfOk result (λ formula. formula ≡ acc_tree_of_shape shape.now) }
        ensures shallow { IfOk result (λ formula. acc_depth formula ≤ most_depth) }
        ensures err { IfErr result (IsDeeper (most_depth < acc_depth (acc_tree_of_shape shape.now))) }
    {
        let mut nodes = Vec::new(alloc);
        let depth = put_nodes(shape, 0, &mut nodes)?;
        Ok(Acc::of_nodes(nodes, depth))
    }
}

/// Makes the tree of `nodes` in postfix order.
fn shape_of(alloc: Global, nodes: &[AccNode]) -> Result<AccShape, Refusal>
    ensures ok { IfOk result (λ shape. acc_tree_of_shape shape ≡ acc_tree_of nodes.now) }
    ensures err { IfErr result IsMemory }
{
    let mut shapes = AccShapes::new(alloc);
    for node in nodes {
        match node {
            AccNode::Constant(value) => shapes.push(AccShape::Constant(*value))?,
            AccNode::Inf(negated, set) => shapes.push(AccShape::Inf(*negated, *set))?,
            AccNode::Fin(negated, set) => shapes.push(AccShape::Fin(*negated, *set))?,
            AccNode::And => shapes.join_by_and()?,
            AccNode::Or => shapes.join_by_or()?,
        }
    }
    Ok(shapes.pop())
}

/// Appends the nodes of `shape`, which is `above` deep below the root, and returns its own depth. Refused past the
/// limit.
fn put_nodes(shape: &AccShape, above: u32, nodes: &mut Vec<AccNode>) -> Result<u32, Refusal>
    requires { above ≤ most_depth }
    ensures depth { IfOk result (λ depth. depth ≡ acc_depth (acc_tree_of_shape shape.now)) }
    ensures shallow { IfOk result (λ depth. above + depth ≤ most_depth) }
    ensures nodes { OnOk result
        (nodes.new.items ≡ nodes.old.items ++ acc_postfix (acc_tree_of_shape shape.now)) }
    ensures err { IfErr result
        (IsDeeper (most_depth < above + acc_depth (acc_tree_of_shape shape.now))) }
{
    if above == MOST_DEPTH {
        return Err(Refusal::Automaton(AutomatonFault::TooDeep));
    }
    match shape {
        AccShape::Constant(value) => put_atom(AccNode::Constant(*value), nodes),
        AccShape::Inf(negated, set) => put_atom(AccNode::Inf(*negated, *set), nodes),
        AccShape::Fin(negated, set) => put_atom(AccNode::Fin(*negated, *set), nodes),
        AccShape::And(left, right) => {
            let left = put_nodes(left, above + 1, nodes)?;
            let right = put_nodes(right, above + 1, nodes)?;
            nodes.push(AccNode::And)?;
            Ok(left.max(right) + 1)
        }
        AccShape::Or(left, right) => {
            let left = put_nodes(left, above + 1, nodes)?;
            let right = put_nodes(right, above + 1, nodes)?;
            nodes.push(AccNode::Or)?;
            Ok(left.max(right) + 1)
        }
    }
}

/// Appends the node of an atom, and returns its depth, which is 1.
fn put_atom(node: AccNode, nodes: &mut Vec<AccNode>) -> Result<u32, Refusal>
    ensures depth { IfOk result (λ depth. depth ≡ 1) }
    ensures nodes { OnOk result (nodes.new.items ≡ nodes.old.items ++ node ∷ []) }
    ensures err { IfErr result IsMemory }
{
    nodes.push(node)?;
    Ok(1)
}
