//! A leaf as a formula of its own.
ghost use Rattle.std.specs.Prelude.{◌<◌, All, IfErr, IfOk, IsOkUnless, OnOk, length};
ghost use Rattle.omega_ltl_formula.specs.Table.{IsPlaced};
ghost use Rattle.omega_ltl_determinization.specs.Refusing.{IsLarge};
ghost use Rattle.omega_ltl_deterministic.specs.private.Copying.{AreWithin};

use crate::question::{Question, When};
use omega_graph_search::{NONE, NumberTable, number_of};
use omega_ltl_formula::{Formula, FormulaBuilder, FormulaNode, UnaryOperator};
use omega_text::{ByteString, Refusal, TaskFault};
use std::alloc::{AllocError, Global};

/// Returns the formula that a question on a formula asks for: a node of it, or `G` or `F` of one. It has no other
/// names and nodes. Fails with [`TaskFault::TooLarge`] if it passes a limit of formulas. Linear in the nodes.
pub(crate) fn leaf_formula(
    alloc: Global,
    formula: &Formula,
    question: Question,
) -> Result<Formula, Refusal>
    requires { question.node < length formula.now.table.nodes }
    ensures { IfErr result IsLarge }
{
    let needed = needed_nodes(alloc, formula.nodes(), question.node)?;
    let mut copy = FormulaBuilder::new(alloc);
    let root = copied_root(alloc, formula, &needed, question.node, &mut copy)?;
    let root = match question.when {
        When::Now => root,
        When::Always => copy.unary(UnaryOperator::Globally, root)?,
        When::Sometime => copy.unary(UnaryOperator::Finally, root)?,
    };
    formula_of_table(alloc, copy, root)
}

/// Returns the formula of a table with this root. Fails with [`TaskFault::TooLarge`] if it passes a limit of formulas.
fn formula_of_table(alloc: Global, table: FormulaBuilder, root: usize) -> Result<Formula, Refusal>
    requires { root < length table.nodes }
    ensures { IfErr result IsLarge }
{
    match table.finish(alloc, root) {
        Ok(formula) => Ok(formula),
        Err(Refusal::Memory) => Err(Refusal::Memory),
        Err(_refusal) => Err(Refusal::Task(TaskFault::TooLarge)),
    }
}

/// Returns a table with a number for the nodes that the node `root` has as parts, and for itself.
fn needed_nodes(
    alloc: Global,
    nodes: &[FormulaNode],
    root: usize,
) -> Result<NumberTable, AllocError> {
    let mut needed = NumberTable::filled(alloc, nodes.len(), NONE)?;
    needed.put(number_of(root), 0);
    // Operands come before their nodes.
    for number in (0..nodes.len()).rev() {
        if needed.at(number_of(number)) != NONE {
            need_operands(nodes[number], &mut needed);
        }
    }
    Ok(needed)
}

/// Notes that the operands of a node are needed.
fn need_operands(node: FormulaNode, needed: &mut NumberTable) {
    match node {
        FormulaNode::Constant(_) | FormulaNode::Name(_) => {}
        FormulaNode::Unary(_, part) => needed.put(number_of(part), 0),
        FormulaNode::Binary(_, left, right) => {
            needed.put(number_of(left), 0);
            needed.put(number_of(right), 0);
        }
    }
}

/// Copies the nodes of a formula that are needed, and returns the number of the copy of `root`.
fn copied_root(
    alloc: Global,
    formula: &Formula,
    needed: &NumberTable,
    root: usize,
    copy: &mut FormulaBuilder,
) -> Result<usize, Refusal>
    requires { root < length formula.now.table.nodes }
    ensures within { IfOk result (λ number. number < length copy.new.nodes) }
    ensures memory { IsOkUnless result Refusal.Memory }
{
    formula.keeps_limits();
    // In place of the nodes that are not needed.
    let spare = copy.constant(false)?;
    let names = formula.names();
    let nodes = formula.nodes();
    let mut numbers = Vec::with_capacity(alloc, nodes.len())?;
    for node in nodes {
        let is_needed = needed.at(number_of(numbers.len())) != NONE;
        let numbers_before = numbers.as_slice();
        let number = copied_if(alloc, is_needed, names, *node, numbers_before, spare, copy)?;
        numbers.push(number)?;
    }
    Ok(numbers[root])
}

/// Copies a node if it is needed, and returns the number of the copy, or `spare`.
fn copied_if(
    alloc: Global,
    is_needed: bool,
    names: &[ByteString],
    node: FormulaNode,
    numbers: &[usize],
    spare: usize,
    copy: &mut FormulaBuilder,
) -> Result<usize, Refusal>
    requires placed { IsPlaced (length names.now) (length numbers.now) node }
    requires within { AreWithin copy.old numbers.now }
    requires spare { spare < length copy.old.nodes }
    ensures within { IfOk result (λ number. number < length copy.new.nodes) }
    ensures all { OnOk result (AreWithin copy.new numbers.now) }
    ensures spare { OnOk result (spare < length copy.new.nodes) }
    ensures memory { IsOkUnless result Refusal.Memory }
{
    if is_needed {
        copied_node(alloc, names, node, numbers, spare, copy)
    } else {
        Ok(spare)
    }
}

/// Copies a node whose operands have copies of these numbers, beside `spare`.
fn copied_node(
    alloc: Global,
    names: &[ByteString],
    node: FormulaNode,
    numbers: &[usize],
    spare: usize,
    copy: &mut FormulaBuilder,
) -> Result<usize, Refusal>
    requires placed { IsPlaced (length names.now) (length numbers.now) node }
    requires within { AreWithin copy.old numbers.now }
    requires spare { spare < length copy.old.nodes }
    ensures within { IfOk result (λ number. number < length copy.new.nodes) }
    ensures all { OnOk result (AreWithin copy.new numbers.now) }
    ensures spare { OnOk result (spare < length copy.new.nodes) }
    ensures memory { IsOkUnless result Refusal.Memory }
{
    match node {
        FormulaNode::Constant(value) => copy.constant(value),
        FormulaNode::Name(number) => copy.name(alloc, names[number].as_slice()),
        FormulaNode::Unary(operator, part) => copy.unary(operator, numbers[part]),
        FormulaNode::Binary(operator, left, right) => {
            copy.binary(operator, numbers[left], numbers[right])
        }
    }
}
