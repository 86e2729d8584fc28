//! One round of circuits, worked out by hand.
use crate::rows::assert_row;
use omega_aiger::read_aiger;
use omega_circuit::Circuit;
use std::alloc::{AllocError, Global};

/// The text of a circuit, values of its inputs and its latches, and all its values in a round with these: of false, of
/// the inputs, the latches and the gates.
type Round = (
    &'static [u8],
    &'static [bool],
    &'static [bool],
    &'static [bool],
);

/// The first gate uses the second.
const IN_ANY_ORDER: &[u8] = b"aag 4 2 0 1 2\n2\n4\n8\n8 6 2\n6 4 2\n";

/// A latch that takes the negation of its value.
const TOGGLE: &[u8] = b"aag 1 0 1 1 0\n2 3\n2\n";

/// The gate holds if neither the input nor the latch does.
const NEITHER: &[u8] = b"aag 3 1 1 1 1\n2\n4 7\n5\n6 5 3\n";

static ROUNDS: [Round; 8] = [
    (
        IN_ANY_ORDER,
        &[true, true],
        &[],
        &[false, true, true, true, true],
    ),
    (
        IN_ANY_ORDER,
        &[true, false],
        &[],
        &[false, true, false, false, false],
    ),
    (
        IN_ANY_ORDER,
        &[false, true],
        &[],
        &[false, false, true, false, false],
    ),
    (TOGGLE, &[], &[false], &[false, false]),
    (TOGGLE, &[], &[true], &[false, true]),
    (NEITHER, &[true], &[false], &[false, true, false, false]),
    (NEITHER, &[false], &[false], &[false, false, false, true]),
    (NEITHER, &[false], &[true], &[false, false, true, false]),
];

/// Returns the values in a round, or none if the inputs or the latches are not as many as these.
fn values_of(
    alloc: Global,
    circuit: &Circuit,
    inputs: &[bool],
    latches: &[bool],
) -> Result<Vec<bool>, AllocError> {
    if circuit.inputs().len() != inputs.len() || circuit.latches().len() != latches.len() {
        return Ok(Vec::new(alloc));
    }
    circuit.round_of(alloc, inputs, latches)
}

/// Whether these are the values.
fn are_values(found: Result<Vec<bool>, AllocError>, values: &[bool]) -> bool {
    match found {
        Ok(found) => found.as_slice() == values,
        Err(_) => false,
    }
}

/// Whether a row holds.
fn is_round(alloc: Global, round: &Round) -> bool {
    let (text, inputs, latches, values) = *round;
    match read_aiger(alloc, text) {
        Ok(circuit) => are_values(values_of(alloc, &circuit, inputs, latches), values),
        Err(_) => false,
    }
}

#[test]
fn gates_are_evaluated_after_those_that_they_use(rt: HostRuntime) {
    for (row, round) in ROUNDS.iter().enumerate() {
        assert_row(&rt, row, is_round(rt.alloc(), round));
    }
}
