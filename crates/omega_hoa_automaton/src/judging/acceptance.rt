ghost use Rattle.std.specs.Prelude.{◌≡◌, is_none, nat_lt, IfErr, IfOk};
ghost use Rattle.std.specs.List.{list_any};
ghost use Rattle.omega_hoa_acceptance.specs.Meaning.{acc_meant};
ghost use Rattle.omega_text.specs.Cases.{IsMemory};
ghost use Rattle.omega_hoa_expression.specs.Limits.{most_depth};
ghost use Rattle.omega_hoa_acceptance.specs.Raw.{raw_acc_depth};
ghost use Rattle.omega_hoa_automaton.specs.Faults.{has_wrong_atom as wrong_atom, passes};
ghost use Rattle.omega_hoa_automaton.specs.Items.{acceptance_in};

use omega_hoa_acceptance::RawAcc;
use omega_hoa_syntax::{RawAutomaton, RawItem};
use omega_text::{AutomatonFault, Refusal};
use std::alloc::Global;

/// Whether an acceptance has an atom that is neither `Fin` nor `Inf` ([AutomatonFault::AcceptanceAtom]).
#[tactic(auto, unfolding(crate::specs::Faults::has_wrong_atom))]
pub(crate) fn has_wrong_atom(alloc: Global, raw: &RawAutomaton) -> Result<bool, Refusal>
    ensures ok { IfOk result (λ wrong. wrong ≡ wrong_atom raw.now) }
    ensures err { IfErr result IsMemory }
{
    any_wrong(alloc, raw.items.as_slice())
}

/// Whether one of `items` is an acceptance with an atom that is neither `Fin` nor `Inf`.
fn any_wrong(alloc: Global, items: &[RawItem]) -> Result<bool, Refusal>
    ensures ok { IfOk result (λ wrong. wrong ≡ list_any (λ item.
        passes (λ accepted. is_none (acc_meant accepted.formula)) (acceptance_in item)) items.now) }
    ensures err { IfErr result IsMemory }
{
    for item in items {
        if is_wrong(alloc, item)? {
            return Ok(true);
        }
    }
    Ok(false)
}

/// Whether `item` is an acceptance with an atom that is neither `Fin` nor `Inf`.
fn is_wrong(alloc: Global, item: &RawItem) -> Result<bool, Refusal>
    ensures ok { IfOk result (λ wrong. wrong
        ≡ passes (λ accepted. is_none (acc_meant accepted.formula)) (acceptance_in item.now)) }
    ensures err { IfErr result IsMemory }
{
    match item {
        RawItem::Acceptance { formula, .. } => means_nothing(alloc, formula),
        _ => Ok(false),
    }
}

/// Whether `formula` has an atom that is neither `Fin` nor `Inf`.
fn means_nothing(alloc: Global, formula: &RawAcc) -> Result<bool, Refusal>
    ensures ok { IfOk result (λ wrong. wrong ≡ is_none (acc_meant formula.now)) }
    ensures err { IfErr result IsMemory }
{
    match formula.formula(alloc) {
        Ok(_) => Ok(false),
        Err(Refusal::Automaton(AutomatonFault::AcceptanceAtom)) => Ok(true),
        Err(Refusal::Automaton(_)) => Ok(false),
        Err(_) => Err(Refusal::Memory),
    }
}

/// Whether one of `items` is an acceptance that is too deep.
pub(crate) fn has_deep_acceptance(items: &[RawItem]) -> bool
    ensures { result ≡ list_any (λ item. passes
        (λ accepted. nat_lt most_depth (raw_acc_depth accepted.formula)) (acceptance_in item))
        items.now }
{
    for item in items {
        if is_deep(item) {
            return true;
        }
    }
    false
}

/// Whether `item` is an acceptance that is too deep.
fn is_deep(item: &RawItem) -> bool
    ensures { result ≡ passes (λ accepted. nat_lt most_depth (raw_acc_depth accepted.formula))
        (acceptance_in item.now) }
{
    match item {
        RawItem::Acceptance { formula, .. } => formula.is_too_deep(),
        _ => false,
    }
}
