//! On which side the names of a circuit stand, and its automaton.

ghost use Rattle.std.specs.Prelude.{◌≡◌, ◌↔◌, ◌||◌, not, IfErr, IfOk, IsTrue, OnOk};
ghost use Rattle.std.specs.List.{list_all, list_any};
ghost use Rattle.std.specs.Str.{bytes_eq};
ghost use Rattle.omega_answers_circuit.specs.Sides.{AreSided, IsAutomatonOf, IsSided, IsSidesRefusal};

use omega_circuit::Circuit;
use omega_circuit_automaton::{circuit_automaton, proposition_names};
use omega_hoa_automaton::{Automaton, Refusal};
use omega_synth_check::is_name_among;
use omega_text::{ByteString, TaskFault};
use std::alloc::Global;

/// Returns the automaton of `circuit`, as `circuit_automaton` makes it. Of `names` the system controls those that are
/// among `system`, and the environment all others: no input is to be named like one of the system, and no output like
/// one of the environment.
///
/// Fails with [AutomatonFault::Proposition] or [CircuitFault::Name], as `circuit_automaton` does, or else with
/// [TaskFault::Controllable] if a name stands on the other side, or else with [TaskFault::TooLarge]. Takes the time of
/// `circuit_automaton` and of comparing each name of the circuit with each of `names` and `system`.
pub(crate) fn sided_automaton(
    alloc: Global,
    circuit: &Circuit,
    names: &[ByteString],
    system: &[ByteString],
) -> Result<Automaton, Refusal>
    ensures automaton { IfOk result (IsAutomatonOf circuit.now) }
    ensures sided { OnOk result (IsSided names.now system.now circuit.now) }
    ensures refused { IfErr result (IsSidesRefusal names.now system.now circuit.now) }
{
    check_sides(alloc, circuit, names, system)?;
    match circuit_automaton(alloc, circuit) {
        Ok(automaton) => Ok(automaton),
        Err(refusal) => Err(refusal),
    }
}

/// Checks the names of `circuit` and their sides. Fails as [sided_automaton] does before the automaton is made.
fn check_sides(
    alloc: Global,
    circuit: &Circuit,
    names: &[ByteString],
    system: &[ByteString],
) -> Result<(), Refusal>
    ensures sided { OnOk result (IsSided names.now system.now circuit.now) }
    ensures refused { IfErr result (IsSidesRefusal names.now system.now circuit.now) }
{
    let own = proposition_names(alloc, circuit)?;
    let (inputs, outputs) = own.as_slice().split_at(circuit.inputs().len());
    if are_sided(inputs, outputs, names, system) {
        Ok(())
    } else {
        Err(Refusal::Task(TaskFault::Controllable))
    }
}

/// Whether no input is named like one of the system, and no output like one of the environment.
fn are_sided(
    inputs: &[ByteString],
    outputs: &[ByteString],
    names: &[ByteString],
    system: &[ByteString],
) -> bool
    ensures { IsTrue result ↔ AreSided names.now system.now inputs.now outputs.now }
{
    are_apart(inputs, system) && are_within(outputs, names, system)
}

/// Whether none of `inputs` is among `system`.
fn are_apart(inputs: &[ByteString], system: &[ByteString]) -> bool
    ensures { result ≡ list_all (λ name. not (list_any (bytes_eq name) system.now)) inputs.now }
{
    inputs
        .iter()
        .all(|name| !is_name_among(system, name.as_slice()))
}

/// Whether each of `outputs` that is among `names` is among `system`.
fn are_within(outputs: &[ByteString], names: &[ByteString], system: &[ByteString]) -> bool
    ensures { result ≡ list_all (λ name. not (list_any (bytes_eq name) names.now)
        || list_any (bytes_eq name) system.now) outputs.now }
{
    outputs
        .iter()
        .all(|name| is_within(name.as_slice(), names, system))
}

/// Whether `name` is among `system`, if it is among `names`.
fn is_within(name: &[u8], names: &[ByteString], system: &[ByteString]) -> bool
    ensures { result ≡ (not (list_any (bytes_eq name.now) names.now)
        || list_any (bytes_eq name.now) system.now) }
{
    !is_name_among(names, name) || is_name_among(system, name)
}
