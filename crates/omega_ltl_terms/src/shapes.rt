//! The shapes of the demands on the nodes of a formula.

ghost use Rattle.std.specs.Prelude.{◌≡◌, ◌<◌, ◌≤◌, ◌*◌, ℕ, true, false, length, IfOk, IsOkUnless};
ghost use Rattle.omega_ltl_formula.specs.Limits.{most_formula_nodes};
ghost use Rattle.omega_ltl_formula.specs.Table.{IsPlaced, node_at};
ghost use Rattle.omega_ltl_shapes.specs.Shapes.{AreGrounded, AreShapesOf, binary_shape, constant_shape};
ghost use Rattle.omega_ltl_shapes.specs.Shapes.{demand};
ghost use Rattle.omega_ltl_shapes.specs.Shapes.{node_shape, unary_shape};
ghost use Rattle.omega_ltl_shapes.specs.declared.combination.Combination.TheVariants.{Both, Cases, Constant};
ghost use Rattle.omega_ltl_shapes.specs.declared.combination.Combination.TheVariants.{Either, Same};
ghost use Rattle.omega_ltl_shapes.specs.declared.shape.Shape.TheVariants.{Fix, Now};

use omega_ltl_formula::{BinaryOperator, Formula, FormulaNode, UnaryOperator};
use omega_ltl_shapes::{Combination, Shape};
use omega_text::{Refusal, Seq};
use std::alloc::Global;

/// Returns the shapes of all demands on the nodes of a formula, by their numbers.
pub(crate) fn shapes_of(alloc: Global, formula: &Formula) -> Result<Seq<Shape>, Refusal>
    ensures shapes { IfOk result (AreShapesOf formula.now.table.nodes) }
    ensures grounded { IfOk result AreGrounded }
    ensures few { IfOk result (λ shapes. length shapes ≤ 2 * most_formula_nodes) }
    ensures memory { IsOkUnless result Refusal.Memory }
{
    formula.keeps_limits();
    Ok(Seq::from_vec(shapes_of_nodes(alloc, formula.nodes())?))
}

/// Returns the shapes of all demands on some nodes, by their numbers.
fn shapes_of_nodes(alloc: Global, nodes: &[FormulaNode]) -> Result<Vec<Shape>, Refusal>
    requires few { length nodes.now ≤ most_formula_nodes }
    requires placed { (number : ℕ) → number < length nodes.now
        → IsPlaced 64 number (node_at nodes.now number) }
    ensures shapes { IfOk result (λ shapes. AreShapesOf nodes.now shapes.items) }
    ensures memory { IsOkUnless result Refusal.Memory }
{
    let mut shapes = Vec::new(alloc);
    for number in 0..nodes.len() {
        shapes.push(node_shape(nodes[number], false))?;
        shapes.push(node_shape(nodes[number], true))?;
    }
    Ok(shapes)
}

/// Returns the demand that a node holds, or, if `negated`, that it does not.
pub(crate) fn demand(node: usize, negated: bool) -> u32
    requires { node < 4096 }
    ensures { result ≡ demand node negated }
{
    if negated {
        2 * node as u32 + 1
    } else {
        2 * node as u32
    }
}

/// Returns the shape of the demand on a node.
fn node_shape(node: FormulaNode, negated: bool) -> Shape
    requires { IsPlaced 64 4096 node }
    ensures { result ≡ node_shape node negated }
{
    match node {
        FormulaNode::Constant(value) => constant_shape(value, negated),
        FormulaNode::Name(name) => Shape::Now(Combination::Literal(name as u32, negated)),
        FormulaNode::Unary(op, a) => unary_shape(op, a, negated),
        FormulaNode::Binary(op, a, b) => binary_shape(op, a, b, negated),
    }
}

/// Returns the shape of a demand on a constant.
fn constant_shape(value: bool, negated: bool) -> Shape
    ensures { result ≡ constant_shape value negated }
{
    if negated {
        Shape::Now(Combination::Constant(!value))
    } else {
        Shape::Now(Combination::Constant(value))
    }
}

/// Returns the shape of a demand on a node with one operand.
fn unary_shape(op: UnaryOperator, a: usize, negated: bool) -> Shape
    requires { a < 4096 }
    ensures { result ≡ unary_shape op a negated }
{
    let (holds, fails) = (demand(a, false), demand(a, true));
    match (op, negated) {
        (UnaryOperator::Not, false) => Shape::Now(Combination::Same(fails)),
        (UnaryOperator::Not, true) => Shape::Now(Combination::Same(holds)),
        (UnaryOperator::Next, false) => Shape::Next(holds),
        (UnaryOperator::Next, true) => Shape::Next(fails),
        (UnaryOperator::Finally, false) => once(holds),
        (UnaryOperator::Finally, true) => ever(fails),
        (UnaryOperator::Globally, false) => ever(holds),
        (UnaryOperator::Globally, true) => once(fails),
    }
}

/// Returns the shape of the demand that another holds at some index from here on.
fn once(d: u32) -> Shape
    ensures { result ≡ Fix (Same d) (Constant true) true }
{
    Shape::Fix {
        goal: Combination::Same(d),
        keep: Combination::Constant(true),
        strong: true,
    }
}

/// Returns the shape of the demand that another holds at each index from here on.
fn ever(d: u32) -> Shape
    ensures { result ≡ Fix (Constant false) (Same d) false }
{
    Shape::Fix {
        goal: Combination::Constant(false),
        keep: Combination::Same(d),
        strong: false,
    }
}

/// Returns the shape of a demand on a node with two operands.
fn binary_shape(op: BinaryOperator, a: usize, b: usize, negated: bool) -> Shape
    requires left { a < 4096 }
    requires right { b < 4096 }
    ensures { result ≡ binary_shape op a b negated }
{
    let (a_holds, a_fails) = (demand(a, false), demand(a, true));
    let (b_holds, b_fails) = (demand(b, false), demand(b, true));
    match (op, negated) {
        (BinaryOperator::And, false) => both(a_holds, b_holds),
        (BinaryOperator::And, true) => either(a_fails, b_fails),
        (BinaryOperator::Or, false) => either(a_holds, b_holds),
        (BinaryOperator::Or, true) => both(a_fails, b_fails),
        (BinaryOperator::Implies, false) => either(a_fails, b_holds),
        (BinaryOperator::Implies, true) => both(a_holds, b_fails),
        (BinaryOperator::Iff, false) => cases(a_holds, b_holds, a_fails, b_fails),
        (BinaryOperator::Iff, true) => cases(a_holds, b_fails, a_fails, b_holds),
        (BinaryOperator::Xor, false) => cases(a_holds, b_fails, a_fails, b_holds),
        (BinaryOperator::Xor, true) => cases(a_holds, b_holds, a_fails, b_fails),
        (BinaryOperator::Until, false) => until(a_holds, b_holds, true),
        (BinaryOperator::Until, true) => release(a_fails, b_fails, false),
        (BinaryOperator::WeakUntil, false) => until(a_holds, b_holds, false),
        (BinaryOperator::WeakUntil, true) => release(a_fails, b_fails, true),
        (BinaryOperator::Release, false) => release(a_holds, b_holds, false),
        (BinaryOperator::Release, true) => until(a_fails, b_fails, true),
        (BinaryOperator::StrongRelease, false) => release(a_holds, b_holds, true),
        (BinaryOperator::StrongRelease, true) => until(a_fails, b_fails, false),
    }
}

/// Returns the shape of both demands.
fn both(d: u32, e: u32) -> Shape
    ensures { result ≡ Now (Both d e) }
{
    Shape::Now(Combination::Both(d, e))
}

/// Returns the shape of one of two demands.
fn either(d: u32, e: u32) -> Shape
    ensures { result ≡ Now (Either d e) }
{
    Shape::Now(Combination::Either(d, e))
}

/// Returns the shape of the first two demands, or the last two.
fn cases(a: u32, b: u32, c: u32, d: u32) -> Shape
    ensures { result ≡ Now (Cases a b c d) }
{
    Shape::Now(Combination::Cases(a, b, c, d))
}

/// Returns the shape of the demand that `left` holds until `right` does, which has to come if it is `strong`.
fn until(left: u32, right: u32, strong: bool) -> Shape
    ensures { result ≡ Fix (Same right) (Same left) strong }
{
    Shape::Fix {
        goal: Combination::Same(right),
        keep: Combination::Same(left),
        strong,
    }
}

/// Returns the shape of the demand that `right` holds up to where `left` does too, which has to come if it is `strong`.
fn release(left: u32, right: u32, strong: bool) -> Shape
    ensures { result ≡ Fix (Both left right) (Same right) strong }
{
    Shape::Fix {
        goal: Combination::Both(left, right),
        keep: Combination::Same(right),
        strong,
    }
}
