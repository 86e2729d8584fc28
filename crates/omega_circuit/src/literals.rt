//! Which literals are in range, and whose variables are defined.

ghost use Rattle.std.specs.Prelude.{◌≤◌, ◌↔◌, ◌/◌, All, IsTrue};
ghost use Rattle.std.specs.List.{Contains};
ghost use Rattle.omega_circuit.specs.Faults.{AllOfProperties, AreInRange};
ghost use Rattle.omega_circuit.specs.Limits.{most_variables};
ghost use Rattle.omega_circuit.specs.declared.gate.Gate.{Gate};
ghost use Rattle.omega_circuit.specs.declared.latch.Latch.{Latch};

use crate::gate::Gate;
use crate::latch::Latch;
use crate::parts::CircuitParts;
use crate::properties::Properties;
use indexmap::IndexSet;

/// Whether the variables of all literals are at most the greatest variable.
pub(crate) fn are_in_range(parts: &CircuitParts) -> bool
    requires { parts.now.most_variable ≤ most_variables }
    ensures { IsTrue result ↔ AreInRange parts.now }
{
    let most = 2 * parts.most_variable + 1;
    are_up_to(parts.inputs.as_slice(), most)
        && are_latches_up_to(parts.latches.as_slice(), most)
        && are_up_to(parts.outputs.as_slice(), most)
        && are_properties_up_to(&parts.properties, most)
        && are_gates_up_to(parts.gates.as_slice(), most)
}

/// Whether all literals are at most `most`.
fn are_up_to(literals: &[u32], most: u32) -> bool
    ensures { IsTrue result ↔ All (λ literal. literal ≤ most) literals.now }
{
    literals.iter().all(|literal| *literal <= most)
}

/// Whether the literals of latches are at most `most`. A reset is no literal.
fn are_latches_up_to(latches: &[Latch], most: u32) -> bool
    ensures { IsTrue result
        ↔ All (λ (latch : Latch). (latch.literal ≤ most) × (latch.next ≤ most)) latches.now }
{
    latches
        .iter()
        .all(|latch| latch.literal <= most && latch.next <= most)
}

/// Whether the literals of gates are at most `most`.
fn are_gates_up_to(gates: &[Gate], most: u32) -> bool
    ensures { IsTrue result ↔ All (λ (gate : Gate). (gate.literal ≤ most) × (gate.left ≤ most)
        × (gate.right ≤ most)) gates.now }
{
    gates.iter().all(|gate| gate.literal <= most && gate.left <= most && gate.right <= most)
}

/// Whether the literals of properties are at most `most`.
fn are_properties_up_to(properties: &Properties, most: u32) -> bool
    ensures { IsTrue result ↔ AllOfProperties (λ literal. literal ≤ most) properties.now }
{
    are_up_to(properties.bad.as_slice(), most)
        && are_up_to(properties.constraints.as_slice(), most)
        && are_up_to(properties.justice.as_slice(), most)
        && are_up_to(properties.fairness.as_slice(), most)
}

/// Whether the variables of all literals are among `variables`.
fn are_defined(literals: &[u32], variables: &IndexSet<u32>) -> bool
    ensures { IsTrue result
        ↔ All (λ literal. Contains variables.now.keys (literal / 2)) literals.now }
{
    for literal in literals {
        if !is_defined(*literal, variables) {
            return false;
        }
    }
    true
}

/// Whether the variables of the literals of properties are among `variables`.
pub(crate) fn are_properties_defined(properties: &Properties, variables: &IndexSet<u32>) -> bool
    ensures { IsTrue result
        ↔ AllOfProperties (λ literal. Contains variables.now.keys (literal / 2)) properties.now }
{
    if !are_defined(properties.bad.as_slice(), variables) {
        return false;
    }
    if !are_defined(properties.constraints.as_slice(), variables) {
        return false;
    }
    if !are_defined(properties.justice.as_slice(), variables) {
        return false;
    }
    are_defined(properties.fairness.as_slice(), variables)
}

/// Whether the variable of a literal is among `variables`.
fn is_defined(literal: u32, variables: &IndexSet<u32>) -> bool
    ensures { IsTrue result ↔ Contains variables.now.keys (literal / 2) }
{
    variables.contains(&(literal / 2))
}
