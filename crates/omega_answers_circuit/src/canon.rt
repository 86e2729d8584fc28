ghost use Rattle.std.specs.Prelude.{IfErr, IfOk};
ghost use Rattle.omega_text.specs.Cases.{or_memory};
ghost use Rattle.omega_answers_circuit.specs.Canon.{IsCircuitCanonAnswer, IsCircuitCanonRefusal};
ghost use Rattle.omega_answers_circuit.specs.Canon.{IsCanonicalText, IsCanonicalTextTooLong};

use crate::circuit_form::CircuitForm;
use crate::circuit_text::circuit_text;
use omega_aiger::laws::{
    binary_circuits_are_read, same_circuits_are_writable, written_circuits_are_read,
};
use omega_aiger::read_aiger;
use omega_circuit::{Circuit, canonical_circuit};
use omega_text::{MOST_TEXT, Refusal, TextFault};
use std::alloc::Global;

/// Returns the text in `form` of the canonical form of the circuit of `text`. It is read back to that circuit, which
/// means the same as the circuit of `text` and has the same names. Takes expected linear time in both texts.
///
/// Fails with the [Refusal::Text] or [Refusal::Circuit] of the text, or else with [TextFault::TooLong] if the text that
/// would be returned has over 16,777,216 bytes.
pub fn canon_circuit(alloc: Global, text: &[u8], form: CircuitForm) -> Result<Vec<u8>, Refusal>
    ensures answer { IfOk result (λ output. IsCircuitCanonAnswer form text.now output.items) }
    ensures refused { IfErr result (or_memory (IsCircuitCanonRefusal form text.now)) }
{
    same_circuits_are_writable();
    written_circuits_are_read();
    binary_circuits_are_read();
    let circuit = read_aiger(alloc, text)?;
    canonical_text(alloc, &circuit, form)
}

/// Returns the text in `form` of the canonical form of a circuit. Fails with [TextFault::TooLong] if it is too long.
fn canonical_text(alloc: Global, circuit: &Circuit, form: CircuitForm) -> Result<Vec<u8>, Refusal>
    ensures text { IfOk result (λ output. IsCanonicalText form circuit.now output.items) }
    ensures refused { IfErr result (or_memory (IsCanonicalTextTooLong form circuit.now)) }
{
    let canonical = canonical_circuit(alloc, circuit)?;
    canonical.is_circuit();
    let written = circuit_text(alloc, &canonical, form)?;
    if written.len() > MOST_TEXT {
        return Err(Refusal::Text(TextFault::TooLong));
    }
    Ok(written)
}
