//! The nodes that a part of a formula needs.

ghost use Rattle.std.specs.Prelude.{◌≡◌, ◌<◌, ℕ, IfOk, IsOkUnless, length};
ghost use Rattle.omega_ltl_formula.specs.Table.{IsPlaced};
ghost use Rattle.omega_ltl_satisfaction.specs.private.Wanted.{IsWanting, marked, with_operands};

use omega_ltl_formula::{Formula, FormulaNode};
use omega_text::Refusal;
use std::alloc::Global;

/// Returns of each node of `formula` whether it is the node `number`, or an operand of one that is. Takes linear time
/// in the nodes.
pub(crate) fn wanted_nodes(
    alloc: Global,
    formula: &Formula,
    number: usize,
) -> Result<Vec<bool>, Refusal>
    requires { number < length formula.now.table.nodes }
    ensures wanted { IfOk result (λ wanted. IsWanting formula.now.table.nodes number 0 wanted.items) }
    ensures memory { IsOkUnless result Refusal.Memory }
{
    formula.keeps_limits();
    let nodes = formula.nodes();
    let mut wanted = vec![in alloc; false; nodes.len()]?;
    wanted[number] = true;
    let mut at = nodes.len();
    while at > 0 {
        at -= 1;
        want_operands(at, nodes[at], wanted.as_mut_slice());
    }
    Ok(wanted)
}

/// Marks the operands of the node `at` as wanted, if it is wanted itself.
fn want_operands(at: usize, node: FormulaNode, wanted: &mut [bool])
    requires within { at < length wanted.old }
    requires placed { (names : ℕ) × IsPlaced names at node }
    ensures { wanted.new ≡ with_operands at node wanted.old }
{
    if wanted[at] {
        mark_operands(node, wanted);
    }
}

/// Marks the operands of `node` as wanted.
fn mark_operands(node: FormulaNode, wanted: &mut [bool])
    requires { (names : ℕ) × IsPlaced names (length wanted.old) node }
    ensures { wanted.new ≡ marked node wanted.old }
{
    match node {
        FormulaNode::Constant(_) | FormulaNode::Name(_) => {}
        FormulaNode::Unary(_, part) => wanted[part] = true,
        FormulaNode::Binary(_, left, right) => {
            wanted[left] = true;
            wanted[right] = true;
        }
    }
}
