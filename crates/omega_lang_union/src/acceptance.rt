//! The acceptance of a union, as a text writes it.

ghost use Rattle.std.specs.Prelude.{◌≡◌, ◌<◌, false, IfErr, IfOk};
ghost use Rattle.omega_hoa_expression.specs.Limits.{most_depth};
ghost use Rattle.omega_hoa_acceptance.specs.Acceptance.{acc_depth, conjunction, inf};
ghost use Rattle.omega_hoa_acceptance.specs.Writing.{acc_written};
ghost use Rattle.omega_hoa_edges.specs.Fitting.{IsLarge};
ghost use Rattle.omega_lang_union.specs.Sharing.{guarded as guarded_formula, union_acceptance};
ghost use Rattle.omega_lang_union.specs.private.Operands.{IsDeepFormula, either_guarded};

use crate::sharing::Sharing;
use omega_hoa_acceptance::{Acc, RawAcc};
use omega_hoa_automaton::Automaton;
use omega_hoa_edges::{conjoined_formula, disjoined_formula, written_formula};
use omega_text::Refusal;
use std::alloc::Global;

/// Returns the acceptance formula of the union. Fails with [TaskFault::TooLarge] if it is deeper than `MOST_DEPTH` as
/// it is written.
pub(crate) fn written_acceptance(
    alloc: Global,
    sharing: &Sharing,
    one: &Automaton,
    other: &Automaton,
) -> Result<RawAcc, Refusal>
    ensures formula { IfOk result
        (λ raw. raw ≡ acc_written (union_acceptance sharing.now one.now other.now)) }
    ensures err { IfErr result
        (IsLarge (IsDeepFormula (union_acceptance sharing.now one.now other.now))) }
{
    let formula = acceptance(alloc, sharing, one, other)?;
    written_formula(alloc, &formula)
}

/// Returns the acceptance formula of the union. Fails with [TaskFault::TooLarge] if it is too deep.
fn acceptance(
    alloc: Global,
    sharing: &Sharing,
    one: &Automaton,
    other: &Automaton,
) -> Result<Acc, Refusal>
    ensures formula { IfOk result
        (λ formula. formula ≡ union_acceptance sharing.now one.now other.now) }
    ensures err { IfErr result
        (IsLarge (IsDeepFormula (union_acceptance sharing.now one.now other.now))) }
{
    let shared = sharing.shared;
    if shared {
        let formula = one.acceptance().copy_in(alloc)?;
        return Ok(formula);
    }
    disjunction_of(alloc, sharing, one, other)
}

/// Returns the disjunction of both formulas with their guards, and with the sets of the second after those of the
/// first. Fails with [TaskFault::TooLarge] if it is too deep.
fn disjunction_of(
    alloc: Global,
    sharing: &Sharing,
    one: &Automaton,
    other: &Automaton,
) -> Result<Acc, Refusal>
    ensures formula { IfOk result (λ formula. formula ≡ either_guarded sharing.now one.now other.now) }
    ensures err { IfErr result
        (IsLarge (most_depth < acc_depth (either_guarded sharing.now one.now other.now))) }
{
    let own = one.acceptance().copy_in(alloc)?;
    let first = formula_with_guard(alloc, sharing.first, own)?;
    let moved = other.acceptance().moved_after(alloc, sharing.before)?;
    let second = formula_with_guard(alloc, sharing.second, moved)?;
    disjoined_formula(first, second)
}

/// Returns `formula`, of runs alone that are infinitely often in the set of `guard`, if there is one. Fails with
/// [TaskFault::TooLarge] if it is too deep.
fn formula_with_guard(alloc: Global, guard: Option<u32>, formula: Acc) -> Result<Acc, Refusal>
    ensures formula { IfOk result (λ with. with ≡ guarded_formula guard formula) }
    ensures err { IfErr result (IsLarge (most_depth < acc_depth (guarded_formula guard formula))) }
{
    match guard {
        None => Ok(formula),
        Some(set) => guarded_by(alloc, set, formula),
    }
}

/// Returns `formula`, of runs alone that are infinitely often in `set`. Fails with [TaskFault::TooLarge] if it is too
/// deep.
fn guarded_by(alloc: Global, set: u32, formula: Acc) -> Result<Acc, Refusal>
    ensures formula { IfOk result (λ with. with ≡ conjunction (inf false set) formula) }
    ensures err { IfErr result
        (IsLarge (most_depth < acc_depth (conjunction (inf false set) formula))) }
{
    let occurs = Acc::inf(alloc, false, set)?;
    conjoined_formula(occurs, formula)
}
