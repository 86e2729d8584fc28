//! How formulas are written: piece by piece, with a list of what is still to be written in place of nested calls.

ghost use Rattle.std.specs.Prelude.{◌≡◌, ◌<◌, ◌++◌, codes, if◌then◌else◌, IfOk, IsOkUnless, OnOk, length};
ghost use Rattle.std.specs.List.{AllByRecursion};
ghost use Rattle.omega_ltl_formula.specs.Table.{tree_of};
ghost use Rattle.omega_ltl_text.specs.Written.{binary_text, formula_text, space_after, unary_text};
ghost use Rattle.omega_ltl_text.specs.private.Nodes.{has_two};
ghost use Rattle.omega_ltl_text.specs.private.Unwritten.{IsNodeAmong, Writes};

use crate::names::write_name;
use crate::unwritten::Unwritten;
use omega_ltl_formula::{
    BinaryOperator, Formula, FormulaNode, UnaryOperator, nodes_are_over_nodes,
};
use omega_text::Refusal;
use std::alloc::Global;

/// Returns the canonical text of `formula`, without a line feed. Takes linear time in that text.
///
/// It has `1` and `0` for constants, the operators `!`, `X`, `F` and `G`, and `&`, `|`, `xor`, `->`, `<->`, `U`, `R`,
/// `W` and `M` with a space on each side. An operand of two operands stands in parentheses, and nothing else does. A
/// name stands in quotes unless it would be read as the same name without.
///
/// `read_formula` reads it back as the same formula: in `laws`, `written_formulas_are_read`.
pub fn write_formula(alloc: Global, formula: &Formula) -> Result<Vec<u8>, Refusal>
    ensures text { IfOk result (λ text. text.items ≡ formula_text (tree_of formula.now)) }
    ensures memory { IsOkUnless result Refusal.Memory }
{
    let mut out = Vec::new(alloc);
    let mut unwritten = Vec::new(alloc);
    formula.keeps_limits();
    unwritten.push(Unwritten::Node(formula.root()))?;
    while let Some(next) = unwritten.pop() {
        write_next(formula, next, &mut unwritten, &mut out)?;
    }
    Ok(out)
}

/// Appends the front of `next`, and puts its rest before all that is `unwritten`.
fn write_next(
    formula: &Formula,
    next: Unwritten,
    unwritten: &mut Vec<Unwritten>,
    out: &mut Vec<u8>,
) -> Result<(), Refusal>
    requires next { IsNodeAmong (length formula.now.table.nodes) next }
    requires others { AllByRecursion (IsNodeAmong (length formula.now.table.nodes)) unwritten.old.items }
    ensures writes { OnOk result (Writes formula.now.table next
        unwritten.old.items unwritten.new.items out.old.items out.new.items) }
    ensures memory { IsOkUnless result Refusal.Memory }
{
    match next {
        Unwritten::Node(number) => write_node(formula, number, unwritten, out),
        Unwritten::Operand(number) => write_operand(formula, number, unwritten, out),
        Unwritten::Between(operator) => write_binary(operator, out),
        Unwritten::Closing => {
            out.push(b')')?;
            Ok(())
        }
    }
}

/// Appends the front of the node `number`: all of an atom, an operator of one operand, nothing of other nodes.
fn write_node(
    formula: &Formula,
    number: usize,
    unwritten: &mut Vec<Unwritten>,
    out: &mut Vec<u8>,
) -> Result<(), Refusal>
    requires number { number < length formula.now.table.nodes }
    requires others { AllByRecursion (IsNodeAmong (length formula.now.table.nodes)) unwritten.old.items }
    ensures writes { OnOk result (Writes formula.now.table (Unwritten.Node number)
        unwritten.old.items unwritten.new.items out.old.items out.new.items) }
    ensures memory { IsOkUnless result Refusal.Memory }
{
    nodes_are_over_nodes();
    formula.keeps_limits();
    match formula.nodes()[number] {
        FormulaNode::Constant(value) => write_constant(value, out),
        FormulaNode::Name(name) => write_name(formula.names()[name].as_slice(), out),
        FormulaNode::Unary(operator, part) => {
            write_unary(operator, has_two(formula.nodes()[part]), out)?;
            unwritten.push(Unwritten::Operand(part))?;
            Ok(())
        }
        FormulaNode::Binary(operator, left, right) => {
            unwritten.push(Unwritten::Operand(right))?;
            unwritten.push(Unwritten::Between(operator))?;
            unwritten.push(Unwritten::Operand(left))?;
            Ok(())
        }
    }
}

/// Appends the front of the operand `number`: a parenthesis if it has two operands itself.
fn write_operand(
    formula: &Formula,
    number: usize,
    unwritten: &mut Vec<Unwritten>,
    out: &mut Vec<u8>,
) -> Result<(), Refusal>
    requires number { number < length formula.now.table.nodes }
    requires others { AllByRecursion (IsNodeAmong (length formula.now.table.nodes)) unwritten.old.items }
    ensures writes { OnOk result (Writes formula.now.table (Unwritten.Operand number)
        unwritten.old.items unwritten.new.items out.old.items out.new.items) }
    ensures memory { IsOkUnless result Refusal.Memory }
{
    nodes_are_over_nodes();
    formula.keeps_limits();
    if has_two(formula.nodes()[number]) {
        out.push(b'(')?;
        unwritten.push(Unwritten::Closing)?;
    }
    unwritten.push(Unwritten::Node(number))?;
    Ok(())
}

/// Appends the constant `value`.
fn write_constant(value: bool, out: &mut Vec<u8>) -> Result<(), Refusal>
    ensures text { OnOk result (out.new.items
        ≡ out.old.items ++ (if value then codes "1" else codes "0")) }
    ensures memory { IsOkUnless result Refusal.Memory }
{
    out.push(if value { b'1' } else { b'0' })?;
    Ok(())
}

/// Whether `node` has two operands.
fn has_two(node: FormulaNode) -> bool
    ensures { result ≡ has_two node }
{
    matches!(node, FormulaNode::Binary(_, _, _))
}

/// Appends `operator`, and what stands between it and its operand, which is in parentheses if `within`.
fn write_unary(operator: UnaryOperator, within: bool, out: &mut Vec<u8>) -> Result<(), Refusal>
    ensures text { OnOk result (out.new.items
        ≡ out.old.items ++ (unary_text operator ++ space_after operator within)) }
    ensures memory { IsOkUnless result Refusal.Memory }
{
    out.push(match operator {
        UnaryOperator::Not => b'!',
        UnaryOperator::Next => b'X',
        UnaryOperator::Finally => b'F',
        UnaryOperator::Globally => b'G',
    })?;
    if !within && operator != UnaryOperator::Not {
        out.push(b' ')?;
    }
    Ok(())
}

/// Appends `operator` with a space on each side.
fn write_binary(operator: BinaryOperator, out: &mut Vec<u8>) -> Result<(), Refusal>
    ensures text { OnOk result (out.new.items
        ≡ out.old.items ++ (codes " " ++ (binary_text operator ++ codes " "))) }
    ensures memory { IsOkUnless result Refusal.Memory }
{
    out.extend_from_slice(match operator {
        BinaryOperator::And => b" & ".as_slice(),
        BinaryOperator::Or => b" | ".as_slice(),
        BinaryOperator::Xor => b" xor ".as_slice(),
        BinaryOperator::Implies => b" -> ".as_slice(),
        BinaryOperator::Iff => b" <-> ".as_slice(),
        BinaryOperator::Until => b" U ".as_slice(),
        BinaryOperator::Release => b" R ".as_slice(),
        BinaryOperator::WeakUntil => b" W ".as_slice(),
        BinaryOperator::StrongRelease => b" M ".as_slice(),
    })?;
    Ok(())
}
