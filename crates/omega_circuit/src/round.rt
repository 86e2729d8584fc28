//! One round of a circuit.

ghost use Rattle.std.specs.Prelude.{◌≡◌, ◌<◌, ◌/◌, ◌+◌, ◌∷◌, ◌++◌, false, All, IfOk, length, map, replicate};
ghost use Rattle.omega_circuit.specs.Circuit.{defined_variables};
ghost use Rattle.omega_circuit.specs.Rounds.{AreNextLatches, AreOutputs, AreValues, literal_value};
ghost use Rattle.omega_circuit.specs.private.Orders.{flag_at};
ghost use Rattle.omega_circuit.specs.private.Steps.{AreWithin, evaluated};

use crate::circuit::Circuit;
use crate::gate::Gate;
use std::alloc::{AllocError, Global};

impl Circuit {
    /// Returns the values of all that the circuit defines in a round in which the inputs and the latches have these
    /// values: false, and then the values of the inputs, the latches and the gates, in the order of
    /// [`inputs`](Circuit::inputs), [`latches`](Circuit::latches) and [`gates`](Circuit::gates). Takes linear time.
    pub fn round_of(
        &self,
        alloc: Global,
        inputs: &[bool],
        latches: &[bool],
    ) -> Result<Vec<bool>, AllocError>
        requires inputs { length inputs.now ≡ length self.now.inputs }
        requires latches { length latches.now ≡ length self.now.latches }
        ensures { IfOk result (λ values. AreValues self.now inputs.now latches.now values.items) }
    {
        let values = given_values(alloc, inputs, latches, self.gates().len())?;
        Ok(values_after(self.wires.gates.as_slice(), values))
    }

    /// Returns the values of the latches in the round after one with these values, as [`round_of`](Circuit::round_of)
    /// returns them. Takes linear time in the latches.
    pub fn next_latches(&self, alloc: Global, values: &[bool]) -> Result<Vec<bool>, AllocError>
        requires { length values.now ≡ length (defined_variables self.now) }
        ensures { IfOk result (λ latches. AreNextLatches self.now values.now latches.items) }
    {
        values_at(alloc, self.wires.reads.nexts.as_slice(), values)
    }

    /// Returns the values of the outputs in a round with these values, as [`round_of`](Circuit::round_of) returns them.
    /// Takes linear time in the outputs.
    pub fn output_values(&self, alloc: Global, values: &[bool]) -> Result<Vec<bool>, AllocError>
        requires { length values.now ≡ length (defined_variables self.now) }
        ensures { IfOk result (λ outputs. AreOutputs self.now values.now outputs.items) }
    {
        values_at(alloc, self.wires.reads.outputs.as_slice(), values)
    }
}

/// Returns the values of numbered literals.
fn values_at(alloc: Global, numbers: &[u32], values: &[bool]) -> Result<Vec<bool>, AllocError>
    requires { All (λ number. number / 2 < length values.now) numbers.now }
    ensures { IfOk result (λ found. found.items
        ≡ map (λ number. literal_value (flag_at values.now) number) numbers.now) }
{
    let mut found = Vec::with_capacity(alloc, numbers.len())?;
    for number in numbers {
        found.push(value_in(values, *number))?;
    }
    Ok(found)
}

/// Returns the values after gates were evaluated one after the other.
fn values_after(steps: &[Gate], mut values: Vec<bool>) -> Vec<bool>
    requires { AreWithin (length values.items) steps.now }
    ensures { result.items ≡ evaluated steps.now values.items }
{
    evaluate(steps, values.as_mut_slice());
    values
}

/// Returns false, the values of inputs and of latches, and room for those of gates.
fn given_values(
    alloc: Global,
    inputs: &[bool],
    latches: &[bool],
    gates: usize,
) -> Result<Vec<bool>, AllocError>
    ensures { IfOk result (λ values. values.items
        ≡ false ∷ (inputs.now ++ (latches.now ++ replicate gates false))) }
{
    let mut values = Vec::new(alloc);
    values.push(false)?;
    values.extend_from_slice(inputs)?;
    values.extend_from_slice(latches)?;
    let rest = vec![in alloc; false; gates]?;
    values.extend_from_slice(rest.as_slice())?;
    Ok(values)
}

/// Evaluates gates one after the other.
fn evaluate(steps: &[Gate], values: &mut [bool])
    requires { AreWithin (length values.old) steps.now }
    ensures { values.new ≡ evaluated steps.now values.old }
{
    for step in steps {
        let value = value_in(values, step.left) && value_in(values, step.right);
        values[step.literal as usize / 2] = value;
    }
}

/// Returns the value of a numbered literal.
fn value_in(values: &[bool], literal: u32) -> bool
    requires { literal / 2 < length values.now }
    ensures { result ≡ literal_value (flag_at values.now) literal }
{
    let value = values[literal as usize / 2];
    if literal % 2 == 0 { value } else { !value }
}
