//! An automaton put together as a text writes it, and the automaton that this means.

ghost use Rattle.std.specs.Prelude.{◌≡◌, Some, IfErr, IfOk, IsOkUnless};
ghost use Rattle.omega_text.specs.declared.refusal.automaton.AutomatonFault.{AutomatonFault};
ghost use Rattle.omega_hoa_automaton.specs.Faults.{automaton_fault_of};
ghost use Rattle.omega_hoa_automaton.specs.Meaning.{Means};
ghost use Rattle.omega_hoa_edges.specs.Fitting.{IsLarge};
ghost use Rattle.omega_hoa_automaton.specs.Faults.{BreaksLimit};
ghost use Rattle.omega_hoa_automaton.specs.Written.{raw_automaton};

use omega_hoa_automaton::{Automaton, RawAutomaton, automaton_of};
use omega_hoa_syntax::{RawItem, RawState};
use omega_text::{ByteString, Refusal, Seq, TaskFault};
use std::alloc::Global;

/// Makes an automaton of a header and a body (HOA v1).
pub fn raw_automaton_of(
    alloc: Global,
    items: Vec<RawItem>,
    states: Vec<RawState>,
) -> Result<RawAutomaton, Refusal>
    ensures assembled { IfOk result (λ raw. raw ≡ raw_automaton items.items states.items) }
    ensures memory { IsOkUnless result Refusal.Memory }
{
    let version = ByteString::from_slice(alloc, b"v1")?;
    Ok(RawAutomaton {
        version,
        items: Seq::from_vec(items),
        states: Seq::from_vec(states),
    })
}

/// Returns the meaning of `raw`. Fails with [TaskFault::TooLarge] if `raw` breaks a limit of automata.
pub fn meaning(alloc: Global, raw: RawAutomaton) -> Result<Automaton, Refusal>
    ensures means { IfOk result (Means raw) }
    ensures err { IfErr result (IsLarge (BreaksLimit raw)) }
{
    match automaton_of(alloc, raw) {
        Ok(automaton) => Ok(automaton),
        Err(Refusal::Automaton(_fault)) => Err(Refusal::Task(TaskFault::TooLarge)),
        Err(refusal) => Err(refusal),
    }
}
