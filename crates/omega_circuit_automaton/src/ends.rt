//! How a round ends: its outputs and the values of the latches after it.

ghost use Rattle.std.specs.Prelude.{◌≡◌, ◌<◌, ℕ, Bool, true, IfOk, IfSome, length, map};
ghost use Rattle.omega_circuit.specs.Rounds.{literal_value};
ghost use Rattle.omega_circuit_automaton.specs.declared.ternary.Ternary.TheVariants.{True, Unknown};
ghost use Rattle.omega_circuit_automaton.specs.private.Cuts.{AreEnds, IsOutcome, is_true, next_values};
ghost use Rattle.omega_circuit_automaton.specs.private.Lanes.{IsLaneOf, IsSound};
ghost use Rattle.omega_circuit_automaton.specs.private.Ternary.{ternary_at};

use crate::evaluator::Evaluator;
use crate::lanes::Lane;
use crate::table::Table;
use crate::ternary::Ternary;
use omega_circuit::{Circuit, Latch};
use std::alloc::{AllocError, Global};

/// The outputs of rounds, and the values of the latches after them.
#[derive(Debug, Drop)]
pub(crate) struct Ends {
    /// The values of the outputs.
    pub(crate) outputs: Vec<bool>,
    /// The next values of the latches.
    pub(crate) nexts: Vec<bool>,
}

/// What becomes of a cube.
#[derive(Debug, Drop)]
pub(crate) enum Outcome {
    /// All of its rounds end so.
    Ends(Ends),
    /// It is split by the input at this place, which is unknown.
    Split(usize),
}

/// Returns how the rounds end in which the latches have these values and the inputs fit `cube`, or an unknown input by
/// which `cube` is split. Takes linear time in the circuit.
pub(crate) fn outcome_of(
    alloc: Global,
    circuit: &Circuit,
    evaluator: &mut Evaluator,
    lane: Lane<'_>,
    latches: &[bool],
    cube: &[Ternary],
) -> Result<Outcome, AllocError>
    requires lane { IsLaneOf circuit.now latches.now lane.bit lane.known.now }
    requires latches { length latches.now ≡ length circuit.now.latches }
    requires inputs { length cube.now ≡ length circuit.now.inputs }
    ensures { IfOk result (IsOutcome circuit.now latches.now cube.now) }
{
    evaluator.evaluate(circuit, lane, cube)?;
    if let Some(ends) = known_ends(alloc, circuit, &evaluator.table, lane)? {
        return Ok(Outcome::Ends(ends));
    }
    match evaluator.input_to_split(circuit, lane, cube) {
        Some(input) => Ok(Outcome::Split(input)),
        None => Ok(Outcome::Ends(full_ends(alloc, circuit, latches, cube)?)),
    }
}

/// Returns the ends as far as values are known, or `None` if one of them is unknown.
fn known_ends(
    alloc: Global,
    circuit: &Circuit,
    table: &Table,
    lane: Lane<'_>,
) -> Result<Option<Ends>, AllocError>
    ensures outputs { IfOk result (λ found. IfSome found (λ ends. (round : ℕ → Bool)
        → IsSound lane.entry.bit round lane.entry.known.now table.now.entries.items
        → ends.outputs.items ≡ map (λ literal. literal_value round literal) circuit.now.outputs)) }
    ensures nexts { IfOk result (λ found. IfSome found (λ ends. (round : ℕ → Bool)
        → IsSound lane.entry.bit round lane.entry.known.now table.now.entries.items
        → ends.nexts.items ≡ next_values circuit.now.latches round)) }
    ensures outputs_long { IfOk result (λ found. IfSome found
        (λ ends. length ends.outputs.items ≡ length circuit.now.outputs)) }
    ensures nexts_long { IfOk result (λ found. IfSome found
        (λ ends. length ends.nexts.items ≡ length circuit.now.latches)) }
{
    let Some(outputs) = known_outputs(alloc, circuit.outputs(), table, lane)? else {
        return Ok(None);
    };
    let Some(nexts) = known_nexts(alloc, circuit.latches(), table, lane)? else {
        return Ok(None);
    };
    Ok(Some(Ends { outputs, nexts }))
}

/// Returns the values of literals, or `None` if one of them is unknown.
fn known_outputs(
    alloc: Global,
    literals: &[u32],
    table: &Table,
    lane: Lane<'_>,
) -> Result<Option<Vec<bool>>, AllocError>
    ensures values { IfOk result (λ found. IfSome found
        (λ values. (round : ℕ → Bool)
        → IsSound lane.entry.bit round lane.entry.known.now table.now.entries.items
        → values.items ≡ map (λ literal. literal_value round literal) literals.now)) }
    ensures long { IfOk result (λ found. IfSome found (λ values. length values.items ≡ length literals.now)) }
{
    let mut values = Vec::new(alloc);
    for literal in literals {
        let Some(value) = known_value(table, lane, *literal) else {
            return Ok(None);
        };
        values.push(value)?;
    }
    Ok(Some(values))
}

/// Returns the next values of latches, or `None` if one of them is unknown.
fn known_nexts(
    alloc: Global,
    latches: &[Latch],
    table: &Table,
    lane: Lane<'_>,
) -> Result<Option<Vec<bool>>, AllocError>
    ensures values { IfOk result (λ found. IfSome found
        (λ values. (round : ℕ → Bool)
        → IsSound lane.entry.bit round lane.entry.known.now table.now.entries.items
        → values.items ≡ next_values latches.now round)) }
    ensures long { IfOk result (λ found. IfSome found (λ values. length values.items ≡ length latches.now)) }
{
    let mut values = Vec::new(alloc);
    for latch in latches {
        let Some(value) = known_value(table, lane, latch.next) else {
            return Ok(None);
        };
        values.push(value)?;
    }
    Ok(Some(values))
}

/// Returns the value of a literal, or `None` if it is unknown.
fn known_value(table: &Table, lane: Lane<'_>, literal: u32) -> Option<bool>
    ensures { IfSome result (λ value. (round : ℕ → Bool)
        → IsSound lane.entry.bit round lane.entry.known.now table.now.entries.items
        → literal_value round literal ≡ value) }
{
    match table.value_of(lane, literal) {
        Ternary::False => Some(false),
        Ternary::True => Some(true),
        Ternary::Unknown => None,
    }
}

/// Returns the ends of the round in which the latches have these values and the inputs are those of `cube`, none of
/// which is unknown.
fn full_ends(
    alloc: Global,
    circuit: &Circuit,
    latches: &[bool],
    cube: &[Ternary],
) -> Result<Ends, AllocError>
    requires latches { length latches.now ≡ length circuit.now.latches }
    requires inputs { length cube.now ≡ length circuit.now.inputs }
    requires known { (k : ℕ) → k < length cube.now → ternary_at cube.now k ≡ Unknown → ⊥ }
    ensures { IfOk result
        (λ ends. AreEnds circuit.now latches.now cube.now ends.outputs.items ends.nexts.items) }
{
    circuit.is_circuit();
    let inputs = letter_of(alloc, cube)?;
    let values = circuit.round_of(alloc, inputs.as_slice(), latches)?;
    let outputs = circuit.output_values(alloc, values.as_slice())?;
    let nexts = circuit.next_latches(alloc, values.as_slice())?;
    Ok(Ends { outputs, nexts })
}

/// Returns the values that a cube says are true.
fn letter_of(alloc: Global, cube: &[Ternary]) -> Result<Vec<bool>, AllocError>
    ensures { IfOk result (λ letter. letter.items ≡ map is_true cube.now) }
{
    let mut letter = Vec::with_capacity(alloc, cube.len())?;
    for value in cube {
        letter.push(*value == Ternary::True)?;
    }
    Ok(letter)
}
