//! Acceptance formulas as a text writes them, with parentheses only if an operator needs them.

ghost use Rattle.std.specs.Prelude.{◌≡◌, ◌<◌, IfErr, IfOk};
ghost use Rattle.omega_hoa_expression.specs.Limits.{most_depth};
ghost use Rattle.omega_hoa_acceptance.specs.Acceptance.{acc_depth, conjunction, disjunction};
ghost use Rattle.omega_hoa_acceptance.specs.Raw.{raw_acc_depth};
ghost use Rattle.omega_hoa_acceptance.specs.Writing.{acc_written};
ghost use Rattle.omega_hoa_edges.specs.Fitting.{IsLarge};

use omega_hoa_acceptance::{Acc, RawAcc};
use omega_text::{Refusal, TaskFault};
use std::alloc::Global;

/// Returns the written form of a formula. Fails with [TaskFault::TooLarge] if it is deeper than `MOST_DEPTH`. Linear in
/// the formula, without recursion.
pub fn written_formula(alloc: Global, formula: &Acc) -> Result<RawAcc, Refusal>
    ensures ok { IfOk result (λ raw. raw ≡ acc_written formula.now) }
    ensures err { IfErr result (IsLarge (most_depth < raw_acc_depth (acc_written formula.now))) }
{
    match formula.canonical_form(alloc) {
        Ok(raw) => Ok(raw),
        Err(Refusal::Automaton(_)) => Err(Refusal::Task(TaskFault::TooLarge)),
        Err(refusal) => Err(refusal),
    }
}

/// Joins two formulas by `&`. Fails with [TaskFault::TooLarge] if the result is deeper than `MOST_DEPTH`.
pub fn conjoined_formula(one: Acc, other: Acc) -> Result<Acc, Refusal>
    ensures ok { IfOk result (λ formula. formula ≡ conjunction one other) }
    ensures err { IfErr result (IsLarge (most_depth < acc_depth (conjunction one other))) }
{
    match one.and(other) {
        Ok(formula) => Ok(formula),
        Err(Refusal::Automaton(_)) => Err(Refusal::Task(TaskFault::TooLarge)),
        Err(refusal) => Err(refusal),
    }
}

/// Joins two formulas by `|`. Fails with [TaskFault::TooLarge] if the result is deeper than `MOST_DEPTH`.
pub fn disjoined_formula(one: Acc, other: Acc) -> Result<Acc, Refusal>
    ensures ok { IfOk result (λ formula. formula ≡ disjunction one other) }
    ensures err { IfErr result (IsLarge (most_depth < acc_depth (disjunction one other))) }
{
    match one.or(other) {
        Ok(formula) => Ok(formula),
        Err(Refusal::Automaton(_)) => Err(Refusal::Task(TaskFault::TooLarge)),
        Err(refusal) => Err(refusal),
    }
}
