ghost use Rattle.std.specs.Prelude.{IfErr, IfOk};
ghost use Rattle.omega_aiger.specs.Text.{IsReadCircuitRefusal};
ghost use Rattle.omega_answers_circuit.specs.Check.{IsCircuitCheckAnswer};

use omega_aiger::read_aiger;
use omega_text::Refusal;
use std::alloc::Global;

/// Returns `accepted` if `text` is the text of a circuit, in expected linear time. Fails with the [Refusal::Text] or
/// [Refusal::Circuit] of the text.
pub fn check_circuit(alloc: Global, text: &[u8]) -> Result<Vec<u8>, Refusal>
    ensures answer { IfOk result (λ output. IsCircuitCheckAnswer text.now output.items) }
    ensures refused { IfErr result (IsReadCircuitRefusal text.now) }
{
    let _circuit = read_aiger(alloc, text)?;
    Ok(Vec::from_slice(alloc, b"accepted\n")?)
}
