//! Whether it can be asked of an automaton if it is realizable.

ghost use Rattle.std.specs.Prelude.{◌≡◌, IfErr, IfOk, OnOk};
ghost use Rattle.omega_hoa_automaton.specs.AcceptanceKind.{HasKind};
ghost use Rattle.omega_hoa_edges.specs.Refusing.{AreUnjudged};
ghost use Rattle.omega_hoa_acceptance.specs.Names.{IsNotParity};
ghost use Rattle.omega_hoa_acceptance.specs.declared.kind.AccKind.TheVariants as kinds;
ghost use Rattle.omega_synth_realize.specs.Refusing.{HasParityKind, IsJudgeable, IsSingle, IsPosingRefusal};
ghost use Rattle.omega_synth_realize.specs.private.Undecided.{is_undecided};

use omega_hoa_acceptance::{ParityKind, parity_of};
use omega_hoa_automaton::{Automaton, has_universal_branching};
use omega_hoa_edges::{check_deterministic_states, check_one_start};
use omega_synth_game::are_seen_apart;
use omega_text::{Refusal, TaskFault};
use std::alloc::Global;

/// Returns the parity kind of `automaton` if that is deterministic. Fails with the first of
/// [TaskFault::UniversalBranch], [TaskFault::NotDeterministic], [TaskFault::NotParity], and
/// [TaskFault::TooManyPropositions] or [TaskFault::TooLarge] where it is not decided whether it is deterministic. Each
/// two edges of a state are judged together only if not all states are seen to be deterministic at once.
pub(crate) fn deterministic_parity_kind(
    alloc: Global,
    automaton: &Automaton,
) -> Result<ParityKind, Refusal>
    ensures judgeable { OnOk result (IsJudgeable automaton.now) }
    ensures kind { IfOk result (λ kind. HasKind automaton.now (kinds.Parity kind)) }
    ensures refused { IfErr result (IsPosingRefusal automaton.now) }
{
    if has_universal_branching(automaton) {
        return Err(Refusal::Task(TaskFault::UniversalBranch));
    }
    check_one_start(automaton)?;
    let apart = are_seen_apart(alloc, automaton)?;
    if apart {
        return kind_of(automaton);
    }
    match check_deterministic_states(alloc, automaton) {
        Ok(()) => kind_of(automaton),
        Err(refusal) => Err(unless_no_kind(automaton, refusal)),
    }
}

/// Returns the `refusal` of judging the states, or [TaskFault::NotParity] if that comes before it.
fn unless_no_kind(automaton: &Automaton, refusal: Refusal) -> Refusal
    requires single { IsSingle automaton.now }
    requires unjudged { AreUnjudged automaton.now refusal }
    ensures { IsPosingRefusal automaton.now result }
{
    if is_undecided(refusal) {
        match kind_of(automaton) {
            Ok(_) => refusal,
            Err(first) => first,
        }
    } else {
        refusal
    }
}

/// Whether the `refusal` says that it is not judged whether two edges can be taken at one letter.
fn is_undecided(refusal: Refusal) -> bool
    ensures { result ≡ is_undecided refusal }
{
    match refusal {
        Refusal::Task(TaskFault::TooManyPropositions) => true,
        Refusal::Task(TaskFault::TooLarge) => true,
        _ => false,
    }
}

/// Returns the parity kind of `automaton`. Fails with [TaskFault::NotParity] if it has none. Takes no memory.
fn kind_of(automaton: &Automaton) -> Result<ParityKind, Refusal>
    ensures kind { IfOk result (λ kind. HasKind automaton.now (kinds.Parity kind)) }
    ensures err { IfErr result (IsNotParity (HasParityKind automaton.now → ⊥)) }
{
    match automaton.acc_name() {
        None => Err(Refusal::Task(TaskFault::NotParity)),
        Some(name) => parity_of(name, automaton.set_count(), automaton.acceptance()),
    }
}
