//! The conjuncts of a formula, or of its negation.

ghost use Rattle.std.specs.Prelude.{◌≡◌, ◌++◌, ◌∷◌, [], IfOk, IsOkUnless, OnOk};
ghost use Rattle.omega_ltl_formula.specs.Table.{tree_of};
ghost use Rattle.omega_ltl_translation.specs.Translation.{asked_tree};
ghost use Rattle.omega_ltl_satisfaction.specs.private.Conjuncts.{AreConjuncts, conjunct_of, parts_of};
ghost use Rattle.omega_ltl_satisfaction.specs.private.Conjuncts.{whole_among};

use crate::conjunct::Conjunct;
use omega_ltl_formula::{BinaryOperator, Formula, FormulaNode, UnaryOperator};
use omega_text::Refusal;
use std::alloc::Global;

/// The most conjuncts that are met one by one.
const MOST_CONJUNCTS: usize = 64;

/// Returns the conjuncts of `formula`, or, if `negated`, of its negation; or that alone if it has over
/// [MOST_CONJUNCTS]. Takes linear time in the atoms and operators.
pub(crate) fn conjuncts_of(
    alloc: Global,
    formula: &Formula,
    negated: bool,
) -> Result<Vec<Conjunct>, Refusal>
    ensures conjuncts { IfOk result (λ conjuncts.
        AreConjuncts formula.now (asked_tree negated (tree_of formula.now)) conjuncts.items) }
    ensures memory { IsOkUnless result Refusal.Memory }
{
    let conjuncts = all_conjuncts(alloc, formula, negated)?;
    if conjuncts.len() <= MOST_CONJUNCTS {
        Ok(conjuncts)
    } else {
        whole_conjunct(alloc, formula, negated)
    }
}

/// Returns `formula`, or, if `negated`, its negation, as the one conjunct of itself.
pub(crate) fn whole_conjunct(
    alloc: Global,
    formula: &Formula,
    negated: bool,
) -> Result<Vec<Conjunct>, Refusal>
    ensures conjuncts { IfOk result (λ conjuncts.
        AreConjuncts formula.now (asked_tree negated (tree_of formula.now)) conjuncts.items) }
    ensures memory { IsOkUnless result Refusal.Memory }
{
    formula.keeps_limits();
    let whole = whole_formula(alloc, formula, negated)?;
    Ok(whole)
}

/// Returns the one conjunct that is `formula`, or, if `negated`, its negation.
fn whole_formula(alloc: Global, formula: &Formula, negated: bool) -> Result<Vec<Conjunct>, Refusal>
    ensures conjunct { IfOk result
        (λ conjuncts. conjuncts.items ≡ conjunct_of formula.now.root negated ∷ []) }
    ensures memory { IsOkUnless result Refusal.Memory }
{
    let mut whole = Vec::new(alloc);
    whole.push(Conjunct {
        node: formula.root(),
        negated,
    })?;
    Ok(whole)
}

/// Returns all conjuncts of `formula`, or, if `negated`, of its negation, from left to right.
fn all_conjuncts(alloc: Global, formula: &Formula, negated: bool) -> Result<Vec<Conjunct>, Refusal>
    ensures conjuncts { IfOk result (λ conjuncts.
        AreConjuncts formula.now (asked_tree negated (tree_of formula.now)) conjuncts.items) }
    ensures memory { IsOkUnless result Refusal.Memory }
{
    formula.keeps_limits();
    let nodes = formula.nodes();
    let mut pending = whole_formula(alloc, formula, negated)?;
    let mut found = Vec::new(alloc);
    while let Some(conjunct) = pending.pop() {
        take_apart(conjunct, nodes[conjunct.node], &mut pending, &mut found)?;
    }
    Ok(found)
}

/// Appends what `conjunct` with this `node` is taken apart into to `pending`, or itself to `found` if it is whole.
fn take_apart(
    conjunct: Conjunct,
    node: FormulaNode,
    pending: &mut Vec<Conjunct>,
    found: &mut Vec<Conjunct>,
) -> Result<(), Refusal>
    ensures pending { OnOk result
        (pending.new.items ≡ pending.old.items ++ parts_of conjunct.negated node) }
    ensures found { OnOk result (found.new.items
        ≡ found.old.items ++ whole_among conjunct (parts_of conjunct.negated node)) }
    ensures memory { IsOkUnless result Refusal.Memory }
{
    let before = pending.len();
    append_parts(conjunct.negated, node, pending)?;
    if pending.len() == before {
        found.push(conjunct)?;
    }
    Ok(())
}

/// Appends what a conjunct with a node is taken apart into, the last first, or nothing if it is whole.
fn append_parts(
    negated: bool,
    node: FormulaNode,
    pending: &mut Vec<Conjunct>,
) -> Result<(), Refusal>
    ensures parts { OnOk result (pending.new.items ≡ pending.old.items ++ parts_of negated node) }
    ensures memory { IsOkUnless result Refusal.Memory }
{
    match node {
        FormulaNode::Unary(UnaryOperator::Not, part) => append(part, !negated, pending),
        FormulaNode::Binary(operator, left, right) => {
            append_operands(negated, operator, left, right, pending)
        }
        _ => Ok(()),
    }
}

/// Appends the operands of a conjunct with an operator of two, if it is a conjunction of them.
fn append_operands(
    negated: bool,
    operator: BinaryOperator,
    left: usize,
    right: usize,
    pending: &mut Vec<Conjunct>,
) -> Result<(), Refusal>
    ensures parts { OnOk result (pending.new.items
        ≡ pending.old.items ++ parts_of negated (FormulaNode.Binary operator left right)) }
    ensures memory { IsOkUnless result Refusal.Memory }
{
    match (operator, negated) {
        (BinaryOperator::And, false) => append_two(right, false, left, false, pending),
        (BinaryOperator::Or, true) => append_two(right, true, left, true, pending),
        (BinaryOperator::Implies, true) => append_two(right, true, left, false, pending),
        _ => Ok(()),
    }
}

/// Appends two conjuncts.
fn append_two(
    first: usize,
    is_first_negated: bool,
    second: usize,
    is_second_negated: bool,
    pending: &mut Vec<Conjunct>,
) -> Result<(), Refusal>
    ensures both { OnOk result (pending.new.items ≡ pending.old.items
        ++ conjunct_of first is_first_negated ∷ conjunct_of second is_second_negated ∷ []) }
    ensures memory { IsOkUnless result Refusal.Memory }
{
    append(first, is_first_negated, pending)?;
    append(second, is_second_negated, pending)
}

/// Appends the conjunct of `node`.
fn append(node: usize, negated: bool, pending: &mut Vec<Conjunct>) -> Result<(), Refusal>
    ensures one { OnOk result (pending.new.items ≡ pending.old.items ++ conjunct_of node negated ∷ []) }
    ensures memory { IsOkUnless result Refusal.Memory }
{
    pending.push(Conjunct { node, negated })?;
    Ok(())
}
