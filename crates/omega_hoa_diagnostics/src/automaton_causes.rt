//! The line that says why an automaton text means no automaton.

ghost use Rattle.std.specs.Prelude.{◌≡◌, IfOk, IsOkUnless};
ghost use Rattle.omega_text.specs.declared.refusal.automaton.AutomatonFault.TheVariants as Fault;
ghost use Rattle.omega_hoa_syntax.specs.declared.raw_automaton.RawAutomaton.{RawAutomaton};
ghost use Rattle.omega_hoa_diagnostics.specs.AutomatonCauses.{IsAutomatonCause, WritesAutomaton, fault_line};
ghost use Rattle.omega_hoa_diagnostics.specs.Sets.{set_range_line};
ghost use Rattle.omega_hoa_diagnostics.specs.States.{state_range_line, state_twice_line};
ghost use Rattle.omega_hoa_diagnostics.specs.private.Refused.{IsFaultOf, IsRefusedFor, fault_in};

use crate::aliases::alias_line;
use crate::sets::set_range_line;
use crate::states::{state_range_line, state_twice_line};
use omega_hoa::{automata_are_unrefused, automata_fill_segments, read_one, refusals_are_one};
use omega_hoa_automaton::{faults_are_least, meanings_are_there};
use omega_hoa_syntax::{RawAutomaton, read_raw};
use omega_text::laws::cuts_are_one;
use omega_text::{AutomatonFault, HoaKind, Refusal, TextCursor};
use std::alloc::Global;

/// Returns the line that says why a text of one automaton means none, with its line feed. Refused with
/// [Refusal::Memory].
///
/// The line is about the fault for which the text is refused, if that is one of the following, and names what is at
/// fault first in the order of the text:
///
/// - a state that is none ([AutomatonFault::StateRange]);
/// - a set that is none ([AutomatonFault::SetRange]), where of an acceptance formula the greatest set is named;
/// - an alias that is not defined, or defined twice ([AutomatonFault::Alias]);
/// - a state that is defined twice ([AutomatonFault::StateTwice]).
///
/// Otherwise, or if `text` is not in the grammar of one automaton, there is no line and the result is empty. Time and
/// memory are linear in the text.
pub fn automaton_cause(alloc: Global, text: &[u8]) -> Result<Vec<u8>, Refusal>
    ensures cause { IfOk result (λ line. IsAutomatonCause text.now line.items) }
    ensures memory { IsOkUnless result Refusal.Memory }
{
    match fault_of(alloc, text)? {
        Some(fault) => fault_line(alloc, text, fault),
        None => Ok(Vec::new(alloc)),
    }
}

/// Returns the fault for which a text of one automaton is refused. None if it is accepted or not in the grammar.
#[tactic(auto, using(crate::proofs::Texts::accepted_has_none))]
fn fault_of(alloc: Global, text: &[u8]) -> Result<Option<AutomatonFault>, Refusal>
    ensures fault { IfOk result (IsFaultOf text.now) }
    ensures memory { IsOkUnless result Refusal.Memory }
{
    automata_fill_segments();
    automata_are_unrefused();
    refusals_are_one();
    meanings_are_there();
    let Err(refusal) = read_one(alloc, text) else {
        return Ok(None);
    };
    fault_in(refusal)
}

/// Returns the fault that a refusal tells. [Refusal::Memory] tells nothing and is handed on.
fn fault_in(refusal: Refusal) -> Result<Option<AutomatonFault>, Refusal>
    ensures { result ≡ fault_in refusal }
{
    match refusal {
        Refusal::Automaton(fault) => Ok(Some(fault)),
        Refusal::Memory => Err(Refusal::Memory),
        _ => Ok(None),
    }
}

/// Returns the line about the fault for which a text is refused, or no bytes.
fn fault_line(alloc: Global, text: &[u8], fault: AutomatonFault) -> Result<Vec<u8>, Refusal>
    requires { IsRefusedFor text.now fault }
    ensures line { IfOk result (λ line. (raw : RawAutomaton) → WritesAutomaton text.now raw
        → line.items ≡ fault_line raw fault) }
    ensures memory { IsOkUnless result Refusal.Memory }
{
    match fault {
        AutomatonFault::StateRange => text_state_range_line(alloc, text),
        AutomatonFault::SetRange => text_set_range_line(alloc, text),
        AutomatonFault::Alias => alias_line(alloc, text),
        AutomatonFault::StateTwice => text_state_twice_line(alloc, text),
        AutomatonFault::Version
        | AutomatonFault::RepeatedHeader
        | AutomatonFault::MissingAcceptance
        | AutomatonFault::UnknownHeader
        | AutomatonFault::Proposition
        | AutomatonFault::MixedLabels
        | AutomatonFault::ImplicitCount
        | AutomatonFault::AcceptanceAtom
        | AutomatonFault::TooDeep
        | AutomatonFault::Expansion => Ok(Vec::new(alloc)),
    }
}

/// Returns the line about the first state that a text mentions and that is none.
fn text_state_range_line(alloc: Global, text: &[u8]) -> Result<Vec<u8>, Refusal>
    requires { IsRefusedFor text.now Fault.StateRange }
    ensures line { IfOk result (λ line. (raw : RawAutomaton) → WritesAutomaton text.now raw
        → line.items ≡ state_range_line raw) }
    ensures memory { IsOkUnless result Refusal.Memory }
{
    faults_are_least();
    match read_written(alloc, text) {
        Ok(raw) => state_range_line(alloc, &raw),
        Err(refusal) => Err(refusal),
    }
}

/// Returns the line about the first set that a text mentions and that is none.
fn text_set_range_line(alloc: Global, text: &[u8]) -> Result<Vec<u8>, Refusal>
    requires { (raw : RawAutomaton) × WritesAutomaton text.now raw }
    ensures line { IfOk result
        (λ line. (raw : RawAutomaton) → WritesAutomaton text.now raw → line.items ≡ set_range_line raw) }
    ensures memory { IsOkUnless result Refusal.Memory }
{
    match read_written(alloc, text) {
        Ok(raw) => set_range_line(alloc, &raw),
        Err(refusal) => Err(refusal),
    }
}

/// Returns the line about the first state that a text defines twice.
fn text_state_twice_line(alloc: Global, text: &[u8]) -> Result<Vec<u8>, Refusal>
    requires { (raw : RawAutomaton) × WritesAutomaton text.now raw }
    ensures line { IfOk result (λ line. (raw : RawAutomaton) → WritesAutomaton text.now raw
        → line.items ≡ state_twice_line raw) }
    ensures memory { IsOkUnless result Refusal.Memory }
{
    match read_written(alloc, text) {
        Ok(raw) => state_twice_line(alloc, &raw),
        Err(refusal) => Err(refusal),
    }
}

/// Reads the automaton that is written in a text, whatever it means.
fn read_written(alloc: Global, text: &[u8]) -> Result<RawAutomaton, Refusal>
    requires { (raw : RawAutomaton) × WritesAutomaton text.now raw }
    ensures written { IfOk result (λ raw. WritesAutomaton text.now raw) }
    ensures same { IfOk result
        (λ raw. (other : RawAutomaton) → WritesAutomaton text.now other → raw ≡ other) }
    ensures memory { IsOkUnless result Refusal.Memory }
{
    cuts_are_one::<HoaKind>();
    let mut tokens = TextCursor::<HoaKind>::new(text);
    read_raw(alloc, &mut tokens)
}
