//! Whether a circuit is in canonical form.

ghost use Rattle.std.specs.Prelude.{◌≡◌, ◌+◌, ◌*◌, ◌^◌, ◌<◌, ℕ, IsTrue, length, slice_index, slice_index_or};
ghost use Rattle.omega_circuit_encoder.specs.Canonical.{IsCanonical, IsCanonicalGate, IsCanonicalLatch};
ghost use Rattle.omega_circuit.specs.Limits.{most_variables};
ghost use Rattle.omega_circuit.specs.declared.gate.Gate.{Gate};
ghost use Rattle.omega_circuit.specs.declared.latch.Latch.{Latch};

use omega_circuit::{Circuit, Gate, Latch};

/// Whether the variables of a circuit are those of its inputs, its latches and its gates in order, latches begin with
/// 0, and gates are of lesser literals, the greater first.
pub(crate) fn is_canonical(circuit: &Circuit) -> bool
    ensures { IsTrue result → IsCanonical circuit.now }
{
    let inputs = circuit.inputs().len();
    let latches = circuit.latches().len();
    if !are_canonical_inputs(circuit.inputs()) {
        return false;
    }
    if !are_canonical_latches(inputs, circuit.latches()) {
        return false;
    }
    are_canonical_gates(inputs, latches, circuit.gates())
}

/// Whether the inputs have the variables from 1 on.
fn are_canonical_inputs(inputs: &[u32]) -> bool
    ensures { IsTrue result → (k : ℕ) → k < length inputs.now → slice_index inputs.now k ≡ 2 * (1 + k) }
{
    for (k, literal) in inputs.iter().enumerate() {
        if u128::from(*literal) != 2 * (1 + k as u128) {
            return false;
        }
    }
    true
}

/// Whether the latches have the variables after those of `inputs` inputs, and begin with 0.
fn are_canonical_latches(inputs: usize, latches: &[Latch]) -> bool
    ensures { IsTrue result → (k : ℕ) (d : Latch) → k < length latches.now
        → IsCanonicalLatch (1 + inputs + k) (slice_index_or latches.now k d) }
{
    for (k, latch) in latches.iter().enumerate() {
        if !is_canonical_latch(1 + inputs as u128 + k as u128, latch) {
            return false;
        }
    }
    true
}

/// Whether a latch has a variable and begins with 0.
fn is_canonical_latch(variable: u128, latch: &Latch) -> bool
    requires { variable < 2 ^ 66 }
    ensures { IsTrue result → IsCanonicalLatch variable latch.now }
{
    u128::from(latch.literal) == 2 * variable && latch.reset == 0
}

/// Whether the gates have the variables after those of `inputs` inputs and `latches` latches, and are of lesser
/// literals, the greater first.
fn are_canonical_gates(inputs: usize, latches: usize, gates: &[Gate]) -> bool
    ensures { IsTrue result → (k : ℕ) (d : Gate) → k < length gates.now
        → IsCanonicalGate (1 + inputs + latches + k) (slice_index_or gates.now k d) }
{
    for (k, gate) in gates.iter().enumerate() {
        if !is_canonical_gate(1 + inputs as u128 + latches as u128 + k as u128, gate) {
            return false;
        }
    }
    true
}

/// Whether a gate has a variable and is of lesser literals, the greater first.
fn is_canonical_gate(variable: u128, gate: &Gate) -> bool
    requires { variable < 2 ^ 66 }
    ensures { IsTrue result → IsCanonicalGate variable gate.now }
{
    u128::from(gate.literal) == 2 * variable && gate.left < gate.literal && gate.right <= gate.left
}
