//! A part of a formula as a formula of its own.

ghost use Rattle.std.specs.Prelude.{◌≡◌, ◌<◌, ℕ, false, true, IfErr, IfOk, IsOkUnless, OnOk, length};
ghost use Rattle.std.specs.Prelude.{slice_index};
ghost use Rattle.omega_ltl_formula.specs.Building.{Adds, empty_table};
ghost use Rattle.omega_ltl_formula.specs.Table.{IsPlaced, tree_at, tree_over};
ghost use Rattle.omega_ltl_satisfaction.specs.private.Parts.{AddsNames, AreCopies, IsPart, IsPartRefusal};
ghost use Rattle.omega_ltl_satisfaction.specs.private.Wanted.{HasOperands, IsWanting};

use crate::wanted::wanted_nodes;
use omega_ltl_formula::{Formula, FormulaBuilder, FormulaNode};
use omega_text::{ByteString, Refusal, TaskFault};
use std::alloc::Global;

/// Returns the formula that the node `number` of `formula` is, of its nodes alone: the time and the limits of
/// `translate` are of all nodes that it sees. Fails with [TaskFault::TooLarge] if it passes a limit of formulas, which
/// no part of a formula within them does. Takes linear time in the nodes.
pub(crate) fn part_of(alloc: Global, formula: &Formula, number: usize) -> Result<Formula, Refusal>
    requires { number < length formula.now.table.nodes }
    ensures part { IfOk result (IsPart formula.now.table number) }
    ensures refused { IfErr result IsPartRefusal }
{
    formula.keeps_limits();
    let marks = wanted_nodes(alloc, formula, number)?;
    let mut copy = FormulaBuilder::new(alloc);
    let numbers = copied_nodes(alloc, formula, marks.as_slice(), &mut copy)?;
    finished(alloc, copy, numbers[number])
}

/// Returns the formula of a table with this root. Fails with [TaskFault::TooLarge] if it passes a limit of formulas.
fn finished(alloc: Global, table: FormulaBuilder, root: usize) -> Result<Formula, Refusal>
    requires { root < length table.nodes }
    ensures table { IfOk result (λ formula. formula.table ≡ table) }
    ensures root { IfOk result (λ formula. formula.root ≡ root) }
    ensures refused { IfErr result IsPartRefusal }
{
    match table.finish(alloc, root) {
        Ok(formula) => Ok(formula),
        Err(Refusal::Memory) => Err(Refusal::Memory),
        Err(_refusal) => Err(Refusal::Task(TaskFault::TooLarge)),
    }
}

/// Adds copies of the marked nodes of `formula` to `copy`, and returns their numbers there, and 0 of the others. With
/// each marked node its operands are marked.
fn copied_nodes(
    alloc: Global,
    formula: &Formula,
    marks: &[bool],
    copy: &mut FormulaBuilder,
) -> Result<Vec<usize>, Refusal>
    requires marks { (number : ℕ) × IsWanting formula.now.table.nodes number 0 marks.now }
    requires copy { copy.old ≡ empty_table }
    ensures copies { IfOk result (λ numbers. AreCopies formula.now.table copy.new
        marks.now (length formula.now.table.nodes) numbers.items) }
    ensures memory { IsOkUnless result Refusal.Memory }
{
    formula.keeps_limits();
    let names = formula.names();
    let nodes = formula.nodes();
    let mut numbers = Vec::with_capacity(alloc, nodes.len())?;
    for node in nodes {
        let is_marked = marks[numbers.len()];
        let number = copied_if(alloc, is_marked, names, *node, numbers.as_slice(), copy)?;
        numbers.push(number)?;
    }
    Ok(numbers)
}

/// Adds a copy of `node` to `copy` and returns its number there, or returns 0 if it is not marked.
fn copied_if(
    alloc: Global,
    is_marked: bool,
    names: &[ByteString],
    node: FormulaNode,
    numbers: &[usize],
    copy: &mut FormulaBuilder,
) -> Result<usize, Refusal>
    requires placed { IsPlaced (length names.now) (length numbers.now) node }
    requires within { is_marked ≡ true
        → HasOperands (λ k. slice_index numbers.now k < length copy.old.nodes) node }
    ensures adds { IfOk result (λ number. is_marked ≡ true → Adds copy.old copy.new
        (tree_over names.now (λ k. tree_at copy.old (slice_index numbers.now k)) node) number) }
    ensures names { OnOk result (is_marked ≡ true → AddsNames names.now copy.old.names copy.new.names) }
    ensures kept { OnOk result (is_marked ≡ false → copy.new ≡ copy.old) }
    ensures memory { IsOkUnless result Refusal.Memory }
{
    if is_marked {
        copied_node(alloc, names, node, numbers, copy)
    } else {
        Ok(0)
    }
}

/// Adds a copy of `node` to `copy`, where its operands have these `numbers`, and returns its number there.
fn copied_node(
    alloc: Global,
    names: &[ByteString],
    node: FormulaNode,
    numbers: &[usize],
    copy: &mut FormulaBuilder,
) -> Result<usize, Refusal>
    requires placed { IsPlaced (length names.now) (length numbers.now) node }
    requires within { HasOperands (λ k. slice_index numbers.now k < length copy.old.nodes) node }
    ensures adds { IfOk result (Adds copy.old copy.new
        (tree_over names.now (λ k. tree_at copy.old (slice_index numbers.now k)) node)) }
    ensures names { OnOk result (AddsNames names.now copy.old.names copy.new.names) }
    ensures memory { IsOkUnless result Refusal.Memory }
{
    match node {
        FormulaNode::Constant(value) => copy.constant(value),
        FormulaNode::Name(number) => copy.name(alloc, names[number].as_slice()),
        FormulaNode::Unary(operator, part) => copy.unary(operator, numbers[part]),
        FormulaNode::Binary(operator, left, right) => {
            copy.binary(operator, numbers[left], numbers[right])
        }
    }
}
