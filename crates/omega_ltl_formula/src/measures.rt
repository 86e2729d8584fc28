//! The depth and the size of formulas, without recursion.

ghost use Rattle.std.specs.Prelude.{◌≡◌, ◌<◌, ◌+◌, ℕ, IfOk, IsOkUnless, length};
ghost use Rattle.omega_ltl_formula.specs.Limits.{most_formula_depth, most_formula_nodes};
ghost use Rattle.omega_ltl_formula.specs.Table.{IsPlaced};
ghost use Rattle.omega_ltl_formula.specs.private.Measures.{AreMeasuresOf, HaveTable, IsMeasureOf};
ghost use Rattle.omega_ltl_formula.specs.private.Measures.{counted, measure_at, measure_over};

use crate::limits::{MOST_FORMULA_DEPTH, MOST_FORMULA_NODES};
use crate::node::FormulaNode;
use omega_text::Refusal;
use std::alloc::Global;

/// The depth and the number of atoms and operators of a formula, each counted just past its limit.
#[derive(Clone, Copy)]
pub(crate) struct Measure {
    pub(crate) depth: u32,
    pub(crate) size: u32,
}

/// Returns the measure of the node `root` of a table with these `nodes`. Takes linear time in the nodes.
pub(crate) fn measure_of(
    alloc: Global,
    nodes: &[FormulaNode],
    root: usize,
) -> Result<Measure, Refusal>
    requires table { HaveTable nodes.now }
    requires rooted { root < length nodes.now }
    ensures measure { IfOk result (IsMeasureOf nodes.now root) }
    ensures memory { IsOkUnless result Refusal.Memory }
{
    let measures = measures_of(alloc, nodes)?;
    Ok(measures[root])
}

/// Returns the measures of all nodes of a table with these `nodes`.
fn measures_of(alloc: Global, nodes: &[FormulaNode]) -> Result<Vec<Measure>, Refusal>
    requires { HaveTable nodes.now }
    ensures each { IfOk result
        (λ measures. AreMeasuresOf nodes.now (length nodes.now) measures.items) }
    ensures memory { IsOkUnless result Refusal.Memory }
{
    let mut measures = Vec::with_capacity(alloc, nodes.len())?;
    for node in nodes {
        let measure = measure_over(*node, measures.as_slice());
        measures.push(measure)?;
    }
    Ok(measures)
}

/// Returns the measure of `node`, whose operands have `measures`.
fn measure_over(node: FormulaNode, measures: &[Measure]) -> Measure
    requires { (names : ℕ) × IsPlaced names (length measures.now) node }
    ensures { result ≡ measure_over (measure_at measures.now) node }
{
    match node {
        FormulaNode::Constant(_) | FormulaNode::Name(_) => counted(1, 1),
        FormulaNode::Unary(_, part) => {
            let part = measures[part];
            counted(part.depth as usize + 1, part.size as usize + 1)
        }
        FormulaNode::Binary(_, left, right) => {
            let left = measures[left];
            let right = measures[right];
            counted(
                left.depth.max(right.depth) as usize + 1,
                left.size as usize + right.size as usize + 1,
            )
        }
    }
}

/// Returns a depth and a size as they are counted.
fn counted(depth: usize, size: usize) -> Measure
    ensures { result ≡ counted depth size }
{
    Measure {
        depth: depth.min(MOST_FORMULA_DEPTH + 1) as u32,
        size: size.min(MOST_FORMULA_NODES + 1) as u32,
    }
}
