//! The negation of a formula.

ghost use Rattle.std.specs.Prelude.{◌≡◌, IfErr, IfOk};
ghost use Rattle.omega_ltl_formula.specs.Building.{IsFormulaRefusal};
ghost use Rattle.omega_ltl_formula.specs.Formula.{unary};
ghost use Rattle.omega_ltl_formula.specs.Negation.{negation_of};
ghost use Rattle.omega_ltl_formula.specs.Table.{tree_of};
ghost use Rattle.omega_ltl_formula.specs.declared.operators.UnaryOperator.TheVariants.{Not};

use crate::formula::Formula;
use crate::node::FormulaNode;
use crate::operators::UnaryOperator;
use omega_text::{Refusal, copy_of_strings};
use std::alloc::Global;

/// Returns the negation of `formula`, over the same names with the same numbers. Takes linear time in the nodes.
///
/// Fails with [AutomatonFault::TooDeep] if `formula` is 256 deep, so that its negation is too deep. Otherwise fails
/// with [TaskFault::TooLarge] if it has 4,096 atoms and operators, or nodes.
pub fn negation_of(alloc: Global, formula: &Formula) -> Result<Formula, Refusal>
    ensures negation { IfOk result (λ made. made ≡ negation_of formula.now) }
    ensures tree { tree_of (negation_of formula.now) ≡ unary Not (tree_of formula.now) }
    ensures refused { IfErr result (IsFormulaRefusal (negation_of formula.now)) }
{
    formula.keeps_limits();
    let root = formula.nodes().len();
    let mut nodes = Vec::from_slice(alloc, formula.nodes())?;
    nodes.push(FormulaNode::Unary(UnaryOperator::Not, formula.root()))?;
    let names = copy_of_strings(alloc, formula.names())?;
    Formula::of_table(alloc, names, nodes, root)
}
