//! The acceptance of a product, as a text writes it.

ghost use Rattle.std.specs.Prelude.{◌≡◌, ◌+◌, ◌<◌, ◌≤◌, IfErr, IfOk, IsOkUnless, None};
ghost use Rattle.omega_hoa_expression.specs.Limits.{most_depth};
ghost use Rattle.omega_hoa_acceptance.specs.Acceptance.{acc_depth};
ghost use Rattle.omega_hoa_acceptance.specs.Raw.{raw_acc_depth};
ghost use Rattle.omega_hoa_acceptance.specs.Writing.{acc_written};
ghost use Rattle.omega_hoa_acceptance.specs.Kind.{buchi_formula};
ghost use Rattle.omega_lang_product.specs.Acceptance.{AreBuchi, both_formulas as formula_of_both};
ghost use Rattle.omega_lang_product.specs.Acceptance.{buchi_name as name_of_buchi};
ghost use Rattle.omega_lang_product.specs.Acceptance.{conjoined_acceptance, is_true as is_always};
ghost use Rattle.omega_hoa_edges.specs.Fitting.{IsLarge};
ghost use Rattle.omega_lang_product.specs.Written.{IsAcceptanceWritten};

use crate::buchi::are_buchi;
use omega_hoa_acceptance::{Acc, AccName, Parameter, RawAcc, is_buchi};
use omega_hoa_automaton::Automaton;
use omega_hoa_edges::{conjoined_formula, written_formula};
use omega_text::{ByteString, Refusal, Seq};
use std::alloc::Global;

/// An acceptance as a text writes it: its name, if it has one, and its formula.
#[derive(Drop)]
pub(crate) struct WrittenAcceptance {
    pub(crate) name: Option<AccName>,
    pub(crate) formula: RawAcc,
}

/// Returns the acceptance of the product. If each set of `one` and of `other` has to recur, and they are at most
/// `MOST_BUCHI_SETS` together, each set of the product has to, and the acceptance has a name. Otherwise it is the
/// conjunction of the two, with the sets of `other` numbered after those of `one`, or one of them alone if the other is
/// `t`. Fails with [TaskFault::TooLarge] if the formula is too deep.
pub(crate) fn joint_acceptance(
    alloc: Global,
    one: &Automaton,
    other: &Automaton,
) -> Result<WrittenAcceptance, Refusal>
    ensures ok { IfOk result
        (λ written. IsAcceptanceWritten one.now other.now written.name written.formula) }
    ensures err { IfErr result
        (IsLarge (most_depth < raw_acc_depth (acc_written (conjoined_acceptance one.now other.now)))) }
{
    if are_buchi(one, other) {
        buchi_of_both(alloc, one, other)
    } else {
        conjunction_of_both(alloc, one, other)
    }
}

/// Returns the acceptance in which each set of both has to recur.
fn buchi_of_both(
    alloc: Global,
    one: &Automaton,
    other: &Automaton,
) -> Result<WrittenAcceptance, Refusal>
    requires { AreBuchi one.now other.now }
    ensures ok { IfOk result
        (λ written. IsAcceptanceWritten one.now other.now written.name written.formula) }
    ensures memory { IsOkUnless result Refusal.Memory }
{
    let sets = one.set_count() + other.set_count();
    let name = buchi_name(alloc, sets)?;
    let formula = buchi_formula(alloc, sets)?;
    Ok(WrittenAcceptance {
        name: Some(name),
        formula,
    })
}

/// Returns the name of the acceptance in which each of `sets` sets has to recur: `all`, `Buchi` or `generalized-Buchi`
/// (HOA v1, acceptance names).
#[tactic(auto, using(crate::proofs::Recurring::named_many))]
pub fn buchi_name(alloc: Global, sets: u32) -> Result<AccName, Refusal>
    ensures ok { IfOk result (λ name. name ≡ name_of_buchi sets) }
    ensures memory { IsOkUnless result Refusal.Memory }
{
    if sets == 0 {
        return name_of(alloc, b"all", vec![in alloc;]?);
    }
    if sets == 1 {
        return name_of(alloc, b"Buchi", vec![in alloc;]?);
    }
    let parameters = vec![in alloc; Parameter::Number(sets)]?;
    name_of(alloc, b"generalized-Buchi", parameters)
}

/// Returns the acceptance name of a word and parameters.
fn name_of(alloc: Global, word: &[u8], parameters: Vec<Parameter>) -> Result<AccName, Refusal>
    ensures ok { IfOk result
        (λ name. name ≡ record { name = word.now; parameters = parameters.items }) }
    ensures memory { IsOkUnless result Refusal.Memory }
{
    let name = ByteString::from_slice(alloc, word)?;
    Ok(AccName {
        name,
        parameters: Seq::from_vec(parameters),
    })
}

/// Returns the formula in which each of `sets` sets has to recur, at most 256 of them.
pub fn buchi_formula(alloc: Global, sets: u32) -> Result<RawAcc, Refusal>
    requires { sets ≤ most_depth }
    ensures ok { IfOk result (λ formula. formula ≡ acc_written (buchi_formula sets)) }
    ensures memory { IsOkUnless result Refusal.Memory }
{
    if sets == 0 {
        RawAcc::constant(alloc, true)
    } else {
        recurring_formula(alloc, sets)
    }
}

/// Returns the formula in which each of `sets` sets, at least one, has to recur.
fn recurring_formula(alloc: Global, sets: u32) -> Result<RawAcc, Refusal>
    requires some { 1 ≤ sets }
    requires few { sets ≤ most_depth }
    ensures ok { IfOk result (λ formula. formula ≡ acc_written (buchi_formula sets)) }
    ensures memory { IsOkUnless result Refusal.Memory }
{
    let mut formula = RawAcc::atom(alloc, b"Inf", false, 0)?;
    for set in 1..sets {
        let atom = RawAcc::atom(alloc, b"Inf", false, set)?;
        formula = formula.and(atom)?;
    }
    Ok(formula)
}

/// Returns the conjunction of both formulas, without a name. Fails with [TaskFault::TooLarge] if it is too deep.
fn conjunction_of_both(
    alloc: Global,
    one: &Automaton,
    other: &Automaton,
) -> Result<WrittenAcceptance, Refusal>
    ensures name { IfOk result (λ written. written.name ≡ None) }
    ensures formula { IfOk result
        (λ written. written.formula ≡ acc_written (conjoined_acceptance one.now other.now)) }
    ensures err { IfErr result (IsLarge
        (most_depth < raw_acc_depth (acc_written (conjoined_acceptance one.now other.now)))) }
{
    let formula = conjunction(alloc, one, other)?;
    let formula = written_formula(alloc, &formula)?;
    Ok(WrittenAcceptance {
        name: None,
        formula,
    })
}

/// Returns the conjunction of both formulas, or the other one alone if one of them is `t`. Fails with
/// [TaskFault::TooLarge] if it is too deep.
pub(crate) fn conjunction(alloc: Global, one: &Automaton, other: &Automaton) -> Result<Acc, Refusal>
    ensures formula { IfOk result (λ formula. formula ≡ conjoined_acceptance one.now other.now) }
    ensures err { IfErr result
        (IsLarge (most_depth < acc_depth (conjoined_acceptance one.now other.now))) }
{
    let first = one.acceptance().copy_in(alloc)?;
    let second = other.acceptance().moved_after(alloc, one.set_count())?;
    both_formulas(first, second)
}

/// Returns the conjunction of two formulas, or the other one alone if one of them is `t`. Fails with
/// [TaskFault::TooLarge] if it is deeper than `MOST_DEPTH`.
fn both_formulas(one: Acc, other: Acc) -> Result<Acc, Refusal>
    ensures ok { IfOk result (λ formula. formula ≡ formula_of_both one other) }
    ensures err { IfErr result (IsLarge (most_depth < acc_depth (formula_of_both one other))) }
{
    if is_true(&one) {
        return Ok(other);
    }
    if is_true(&other) {
        return Ok(one);
    }
    conjoined_formula(one, other)
}

/// Whether a formula is `t`.
fn is_true(formula: &Acc) -> bool
    ensures { result ≡ is_always formula.now }
{
    is_buchi(0, formula)
}
