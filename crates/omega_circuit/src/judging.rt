//! The faults of parts, in their order.

ghost use Rattle.std.specs.Prelude.{◌≡◌, ◌↔◌, ◌<◌, All, IfErr, IfNone, IfOk, IfSome, IsTrue};
ghost use Rattle.std.specs.Prelude.{length, map};
ghost use Rattle.omega_circuit.specs.Circuit.{AreDefinitions, defined_literals, defined_variables};
ghost use Rattle.omega_circuit.specs.Faults.{AreInRange, AreUsesDefined, HasRoom, IsCircuitRefusal};
ghost use Rattle.omega_circuit.specs.Faults.{IsWithout, value_of};
ghost use Rattle.omega_circuit.specs.private.Numbers.{first_gate, gate_at, next_literals};
ghost use Rattle.omega_circuit.specs.private.Steps.{AreSteps};
ghost use Rattle.omega_circuit.specs.private.Wires.{AreReads, AreWires};
ghost use Rattle.omega_text.specs.declared.refusal.circuit.CircuitFault.{CircuitFault};

use crate::gate::Gate;
use crate::gate_order::order_of;
use crate::latch::Latch;
use crate::limits::MOST_VARIABLES;
use crate::literals::{are_in_range, are_properties_defined};
use crate::names::{are_resets, are_symbols, has_no_properties};
use crate::parts::CircuitParts;
use crate::variables::{defined_literals, variables_of};
use crate::wiring::{Reads, Wires, nets_of, numbers_of};
use indexmap::IndexSet;
use omega_text::{CircuitFault, Refusal};
use std::alloc::{AllocError, Global};

/// Returns the wires of `parts` with the gates in an order in which each comes after those that it uses, if `parts`
/// have no fault.
pub(crate) fn ordered_wires(alloc: Global, parts: &CircuitParts) -> Result<Wires, Refusal>
    ensures steps { IfOk result (λ wires. AreSteps (value_of parts.now) wires.gates.items) }
    ensures reads { IfOk result (λ wires. AreReads (value_of parts.now) wires.reads) }
    ensures faultless { IfOk result (λ wires. (fault : CircuitFault) → IsWithout fault parts.now) }
    ensures fault { IfErr result (IsCircuitRefusal parts.now) }
{
    let wires = defined_wires(alloc, parts)?;
    let Some(order) = order_of(alloc, first_gate(parts), wires.gates.as_slice())? else {
        return Err(Refusal::Circuit(CircuitFault::Cycle));
    };
    if !are_resets(parts.latches.as_slice()) {
        return Err(Refusal::Circuit(CircuitFault::Reset));
    }
    if !are_symbols(alloc, parts)? {
        return Err(Refusal::Circuit(CircuitFault::Symbol));
    }
    if !has_no_properties(&parts.properties) {
        return Err(Refusal::Circuit(CircuitFault::Properties));
    }
    let gates = gates_along(alloc, wires.gates.as_slice(), order.as_slice())?;
    Ok(Wires {
        gates,
        reads: wires.reads,
    })
}

/// Returns the wires of `parts`, if `parts` have none of the first four faults.
fn defined_wires(alloc: Global, parts: &CircuitParts) -> Result<Wires, Refusal>
    ensures wires { IfOk result (λ wires. AreWires (value_of parts.now) wires) }
    ensures room { IfOk result (λ wires. HasRoom parts.now) }
    ensures range { IfOk result (λ wires. AreInRange parts.now) }
    ensures definitions { IfOk result (λ wires. AreDefinitions (defined_literals (value_of parts.now))) }
    ensures uses { IfOk result (λ wires. AreUsesDefined parts.now) }
    ensures fault { IfErr result (IsCircuitRefusal parts.now) }
{
    if !has_room(parts) {
        return Err(Refusal::Circuit(CircuitFault::Variables));
    }
    if !are_in_range(parts) {
        return Err(Refusal::Circuit(CircuitFault::LiteralRange));
    }
    let literals = defined_literals(alloc, parts)?;
    let Some(variables) = variables_of(alloc, literals.as_slice())? else {
        return Err(Refusal::Circuit(CircuitFault::Defined));
    };
    match wires_of(alloc, &variables, parts)? {
        Some(wires) => Ok(wires),
        None => Err(Refusal::Circuit(CircuitFault::Undefined)),
    }
}

/// Whether the greatest variable is within the limit, and leaves room for the definitions.
fn has_room(parts: &CircuitParts) -> bool
    ensures { IsTrue result ↔ HasRoom parts.now }
{
    let defined = parts.inputs.len() as u128
        + parts.latches.len() as u128
        + parts.gates.len() as u128;
    let most = parts.most_variable as u128;
    defined <= most && (!parts.is_dense || most == defined) && parts.most_variable <= MOST_VARIABLES
}

/// Returns the number of the first gate's variable.
fn first_gate(parts: &CircuitParts) -> usize
    requires { HasRoom parts.now }
    ensures { result ≡ first_gate (value_of parts.now) }
{
    1 + parts.inputs.len() + parts.latches.len()
}

/// Returns the wires of `parts`, or `None` if the variable of a literal that is used is not among `variables`, which
/// are those that `parts` define.
fn wires_of(
    alloc: Global,
    variables: &IndexSet<u32>,
    parts: &CircuitParts,
) -> Result<Option<Wires>, AllocError>
    requires room { HasRoom parts.now }
    requires variables { variables.now.keys ≡ defined_variables (value_of parts.now) }
    ensures wires { IfOk result (λ found. IfSome found (AreWires (value_of parts.now))) }
    ensures uses { IfOk result (λ found. IfSome found (λ wires. AreUsesDefined parts.now)) }
    ensures fault { IfOk result (λ found. IfNone found (AreUsesDefined parts.now → ⊥)) }
{
    let Some(reads) = reads_of(alloc, variables, parts)? else {
        return Ok(None);
    };
    if !are_properties_defined(&parts.properties, variables) {
        return Ok(None);
    }
    let nets = nets_of(alloc, variables, first_gate(parts), parts.gates.as_slice())?;
    let Some(gates) = nets else {
        return Ok(None);
    };
    Ok(Some(Wires { gates, reads }))
}

/// Returns what is read at the end of a round, or `None` if a variable of it is not among `variables`, which are those
/// that `parts` define.
fn reads_of(
    alloc: Global,
    variables: &IndexSet<u32>,
    parts: &CircuitParts,
) -> Result<Option<Reads>, AllocError>
    requires room { HasRoom parts.now }
    requires variables { variables.now.keys ≡ defined_variables (value_of parts.now) }
    ensures reads { IfOk result (λ found. IfSome found (AreReads (value_of parts.now))) }
    ensures none { IfOk result (λ found. IfNone found (AreUsesDefined parts.now → ⊥)) }
{
    let next_literals = next_literals(alloc, parts.latches.as_slice())?;
    let Some(nexts) = numbers_of(alloc, variables, next_literals.as_slice())? else {
        return Ok(None);
    };
    let Some(outputs) = numbers_of(alloc, variables, parts.outputs.as_slice())? else {
        return Ok(None);
    };
    Ok(Some(Reads { nexts, outputs }))
}

/// Returns the next literals of latches.
pub(crate) fn next_literals(alloc: Global, latches: &[Latch]) -> Result<Vec<u32>, AllocError>
    ensures { IfOk result (λ literals. literals.items ≡ next_literals latches.now) }
{
    latches.iter().map(|latch| latch.next).collect(alloc)
}

/// Returns the gates of `nets` in this order.
fn gates_along(alloc: Global, nets: &[Gate], order: &[usize]) -> Result<Vec<Gate>, AllocError>
    requires { All (λ k. k < length nets.now) order.now }
    ensures { IfOk result (λ steps. steps.items ≡ map (gate_at nets.now) order.now) }
{
    let mut steps = Vec::with_capacity(alloc, order.len())?;
    for k in order {
        steps.push(nets[*k])?;
    }
    Ok(steps)
}
