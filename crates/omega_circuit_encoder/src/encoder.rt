ghost use Rattle.std.specs.Prelude.{◌≡◌, All, IfErr, IfOk, IsTrue, OnOk, length};
ghost use Rattle.omega_circuit_encoder.specs.Canonical.{IsCanonical};
ghost use Rattle.omega_circuit_encoder.specs.Names.{HasNamesOf, IsSymbolName};
ghost use Rattle.omega_circuit_encoder.specs.Refusing.{IsEncodingRefusal, IsLimitRefusal};

use crate::exploring::machine_of;
use crate::judging::is_canonical;
use crate::merging::merged;
use crate::names::{are_symbol_names, side_names, symbols_of};
use crate::network::network_of;
use crate::parting::Parting;
use crate::parts::parts_of;
use crate::pruning::{PrunedNetwork, pruned};
use omega_circuit::{Circuit, circuit_of};
use omega_hoa_automaton::Automaton;
use omega_text::{CircuitFault, Refusal, TaskFault};
use std::alloc::Global;

/// Returns a circuit that is to answer each letter of the environment as a controller does, where the system controls
/// the propositions with the numbers `controlled`. Nothing is proved of what it does, which its user judges. The
/// controller accepts all runs, and in each state that is reached an edge answers each letter.
///
/// In each state and at each letter the circuit follows an edge that was followed at a letter before, if one answers,
/// else the first edge that does; outputs that its label leaves open are 0. States that choose alike are merged. The
/// others are numbered breadth first from the start, and each bit of their numbers is a latch that begins with 0. A
/// second call returns the same circuit.
///
/// The circuit is in canonical form. Its inputs are the environment's propositions in order, and its outputs the
/// system's, each with a symbol.
///
/// Fails with [`CircuitFault::Name`] if a name is empty or has a line feed. Else fails with
/// [`TaskFault::TooManyPropositions`] if the labels of a state mention over 12 of the environment's propositions. Else
/// fails with [`TaskFault::TooLarge`] if the circuit would have over [`omega_circuit::MOST_VARIABLES`] variables, if a
/// state has no edge for a letter, or if it is not found in a bounded number of tries whether an edge answers.
///
/// Takes time proportional to the letters of each state and the sizes of its labels, and to the choices of all states
/// for each output and each latch.
pub fn circuit_of_controller(
    alloc: Global,
    controller: &Automaton,
    controlled: &[u32],
) -> Result<Circuit, Refusal>
    ensures canonical { IfOk result IsCanonical }
    ensures names { IfOk result (HasNamesOf controller.now.propositions controlled.now) }
    ensures symbols { OnOk result (All IsSymbolName controller.now.propositions) }
    ensures refused { IfErr result (IsEncodingRefusal controller.now.propositions) }
{
    if !are_symbol_names(controller.propositions()) {
        return Err(Refusal::Circuit(CircuitFault::Name));
    }
    match judged_circuit(alloc, controller, controlled) {
        Ok(circuit) => Ok(circuit),
        Err(refusal) => Err(as_limit(refusal)),
    }
}

/// Returns the circuit of a controller whose propositions' names symbols can have. Fails with [`TaskFault::TooLarge`]
/// if it is not as it is promised.
fn judged_circuit(
    alloc: Global,
    controller: &Automaton,
    controlled: &[u32],
) -> Result<Circuit, Refusal>
    ensures canonical { IfOk result IsCanonical }
    ensures names { IfOk result (HasNamesOf controller.now.propositions controlled.now) }
{
    controller.keeps_limits();
    let names = controller.propositions();
    let inputs = side_names(alloc, names, controlled, false)?;
    let outputs = side_names(alloc, names, controlled, true)?;
    let symbols = symbols_of(alloc, inputs.as_slice(), outputs.as_slice())?;
    let parting = Parting::of(alloc, names.len(), controlled)?;
    let network = controller_network(alloc, controller, &parting)?;
    let parts = parts_of(alloc, &parting, network, symbols)?;
    let circuit = circuit_of(alloc, parts)?;
    // No circuit comes out otherwise.
    if !has_sides(&circuit, inputs.len(), outputs.len()) {
        return Err(Refusal::Task(TaskFault::TooLarge));
    }
    if !is_canonical(&circuit) {
        return Err(Refusal::Task(TaskFault::TooLarge));
    }
    Ok(circuit)
}

/// Returns the network of a controller, without gates that nothing needs.
fn controller_network(
    alloc: Global,
    controller: &Automaton,
    parting: &Parting,
) -> Result<PrunedNetwork, Refusal> {
    let machine = machine_of(alloc, controller, parting)?;
    let machine = merged(alloc, machine)?;
    let network = network_of(alloc, &machine, parting)?;
    Ok(pruned(alloc, &network)?)
}

/// Whether a circuit has so many inputs and outputs.
fn has_sides(circuit: &Circuit, inputs: usize, outputs: usize) -> bool
    ensures { IsTrue result → (length circuit.now.inputs ≡ inputs) × (length circuit.now.outputs ≡ outputs) }
{
    circuit.inputs().len() == inputs && circuit.outputs().len() == outputs
}

/// Returns [`TaskFault::TooLarge`] in place of any refusal but [`Refusal::Memory`] and
/// [`TaskFault::TooManyPropositions`]: the others are of limits.
fn as_limit(refusal: Refusal) -> Refusal
    ensures { IsLimitRefusal result }
{
    match refusal {
        Refusal::Memory => Refusal::Memory,
        Refusal::Task(TaskFault::TooManyPropositions) => {
            Refusal::Task(TaskFault::TooManyPropositions)
        }
        _ => Refusal::Task(TaskFault::TooLarge),
    }
}
