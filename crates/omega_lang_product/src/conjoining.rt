//! The acceptance formula of a product.

ghost use Rattle.std.specs.Prelude.{◌≡◌, ◌+◌, ◌<◌, ◌≤◌, IfErr, IfOk, IsOkUnless};
ghost use Rattle.omega_hoa_expression.specs.Limits.{most_depth};
ghost use Rattle.omega_hoa_acceptance.specs.Acceptance.{acc_depth};
ghost use Rattle.omega_hoa_acceptance.specs.Kind.{buchi_formula};
ghost use Rattle.omega_hoa_edges.specs.Fitting.{IsLarge};
ghost use Rattle.omega_lang_product.specs.Acceptance.{AreBuchi, IsJointFormula, conjoined_acceptance};

use crate::acceptance::conjunction;
use crate::buchi::are_buchi;
use omega_hoa_acceptance::Acc;
use omega_hoa_automaton::Automaton;
use omega_text::Refusal;
use std::alloc::Global;

/// Returns the acceptance formula of the product, as `joint_acceptance` writes it. Fails with [TaskFault::TooLarge] if
/// it is too deep.
pub(crate) fn joint_formula(
    alloc: Global,
    one: &Automaton,
    other: &Automaton,
) -> Result<Acc, Refusal>
    ensures ok { IfOk result (IsJointFormula one.now other.now) }
    ensures err { IfErr result
        (IsLarge (most_depth < acc_depth (conjoined_acceptance one.now other.now))) }
{
    if are_buchi(one, other) {
        recurring_in_both(alloc, one, other)
    } else {
        conjunction(alloc, one, other)
    }
}

/// Returns the formula in which each set of both has to recur.
fn recurring_in_both(alloc: Global, one: &Automaton, other: &Automaton) -> Result<Acc, Refusal>
    requires { AreBuchi one.now other.now }
    ensures ok { IfOk result (λ formula. formula ≡ buchi_formula (one.now.sets + other.now.sets)) }
    ensures memory { IsOkUnless result Refusal.Memory }
{
    let sets = one.set_count() + other.set_count();
    if sets == 0 {
        let always = Acc::constant(alloc, true)?;
        return Ok(always);
    }
    recurrence_formula(alloc, sets)
}

/// Returns the formula in which each of `sets` sets, at least one, has to recur.
fn recurrence_formula(alloc: Global, sets: u32) -> Result<Acc, Refusal>
    requires some { 1 ≤ sets }
    requires few { sets ≤ most_depth }
    ensures ok { IfOk result (λ formula. formula ≡ buchi_formula sets) }
    ensures memory { IsOkUnless result Refusal.Memory }
{
    let mut formula = Acc::inf(alloc, false, 0)?;
    for set in 1..sets {
        let atom = Acc::inf(alloc, false, set)?;
        formula = formula.and(atom)?;
    }
    Ok(formula)
}
