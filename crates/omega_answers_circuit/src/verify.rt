//! Whether a circuit realizes a specification.

ghost use Rattle.std.specs.Prelude.{ℕ, List, IfErr, IfOk};
ghost use Rattle.omega_aiger.specs.Text.{IsCircuitText};
ghost use Rattle.omega_circuit.specs.Circuit.{CircuitValue};
ghost use Rattle.omega_hoa.specs.Alone.{IsAutomatonText};
ghost use Rattle.omega_answers_circuit.specs.Verify.{IsCircuitAnswer, IsCircuitRefused, IsCircuitVerdict};
ghost use Rattle.omega_answers_circuit.specs.Verify.{RefusesCircuit};

use crate::judge::circuit_judgement;
use crate::judgement_answer::judgement_reply;
use omega_aiger::read_aiger;
use omega_circuit::Circuit;
use omega_hoa::read_one;
use omega_hoa_automaton::Automaton;
use omega_io::{Exit, Refused, Which};
use std::alloc::Global;

/// Decides whether the circuit of `circuit` realizes the automaton of `specification`, which is to be deterministic:
/// the specification accepts each word of the circuit. Returns `yes` with [Exit::Done], else `no` with [Exit::No].
///
/// A word of the circuit has in each round the values of the inputs and outputs under their names. A proposition of the
/// specification is the input or output of that name; one that the circuit lacks is open, and a name that the
/// specification lacks says nothing. A circuit answers each letter of its inputs, of which there may be any number.
///
/// If `explain` is set, the lines of `contained_texts` follow `no`: an accepting lasso of the automaton that
/// `write_circuit_automaton` writes for the circuit, and its word.
///
/// `specification` is the text that a refusal calls the file, and `circuit` the one that it calls the input. Fails with
/// the [Refusal::Text] or [Refusal::Automaton] of `specification`, or else with the [Refusal::Text] or
/// [Refusal::Circuit] of `circuit`. Or else fails with [TaskFault::Controllable] about `specification` if its item
/// `controllable-AP:` (extended HOA) is refused.
///
/// Or else fails about `circuit` with [AutomatonFault::Proposition] or [CircuitFault::Name] as `circuit_automaton`
/// does, or else with [TaskFault::Controllable]: the specification has the item, and an input is named like a
/// proposition of the system or an output like one of the environment. Or else fails so with [TaskFault::TooLarge] as
/// `circuit_automaton` does.
///
/// Or else fails as `decide_containment` does: [TaskFault::NotDeterministic] and [TaskFault::UniversalBranch] are about
/// `specification`, and [TaskFault::TooManyPropositions] and [TaskFault::TooLarge] about neither text.
pub fn verify_circuit(
    alloc: Global,
    specification: &[u8],
    circuit: &[u8],
    explain: bool,
) -> Result<(Exit, Vec<u8>), Refused>
    ensures answer { IfOk result
        (λ made. IsCircuitAnswer specification.now circuit.now explain made.0 made.1.items) }
    ensures refused { IfErr result (IsCircuitRefused specification.now circuit.now) }
{
    match read_one(alloc, specification) {
        Ok(read) => verdict_on_text(alloc, &read, circuit, explain),
        Err(refusal) => Err(Refused::of(Which::File, refusal)),
    }
}

/// Returns the exit and the text for a specification and the circuit of `text`. Fails as [verify_circuit] does after
/// the specification is read.
fn verdict_on_text(
    alloc: Global,
    specification: &Automaton,
    text: &[u8],
    explain: bool,
) -> Result<(Exit, Vec<u8>), Refused>
    ensures verdict { IfOk result (λ made. (c : CircuitValue) × IsCircuitText text.now c
        × IsCircuitVerdict specification.now c explain made.0 made.1.items) }
    ensures refused { IfErr result (λ refused. (source : List ℕ) → IsAutomatonText source specification.now
        → IsCircuitRefused source text.now refused) }
{
    match read_aiger(alloc, text) {
        Ok(circuit) => circuit_verdict(alloc, specification, &circuit, explain),
        Err(refusal) => Err(Refused::of(Which::Input, refusal)),
    }
}

/// Returns the exit and the text for a specification and a circuit. Fails as [circuit_judgement] does.
fn circuit_verdict(
    alloc: Global,
    specification: &Automaton,
    circuit: &Circuit,
    explain: bool,
) -> Result<(Exit, Vec<u8>), Refused>
    ensures verdict { IfOk result
        (λ made. IsCircuitVerdict specification.now circuit.now explain made.0 made.1.items) }
    ensures refused { IfErr result (RefusesCircuit specification.now circuit.now) }
{
    let judgement = circuit_judgement(alloc, specification, circuit)?;
    match judgement_reply(alloc, &judgement, explain) {
        Ok(made) => Ok(made),
        Err(refusal) => Err(Refused::from(refusal)),
    }
}
