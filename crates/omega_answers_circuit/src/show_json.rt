ghost use Rattle.std.specs.Prelude.{◌≡◌, IfErr, IfOk, IsOkUnless};
ghost use Rattle.omega_aiger.specs.Text.{IsReadCircuitRefusal};
ghost use Rattle.omega_answers_circuit.specs.ShowJson.{IsCircuitShowJsonAnswer, sizes_object};
ghost use Rattle.omega_text.specs.declared.refusal.Refusal.{Refusal};

use crate::show::append_count;
use omega_aiger::read_aiger;
use omega_circuit::Circuit;
use omega_text::Refusal;
use std::alloc::Global;

/// Returns a JSON object on one line for the circuit of `text`, in expected linear time. Its members are the numbers of
/// `inputs`, `latches`, `outputs` and `gates`. Fails with the [Refusal::Text] or [Refusal::Circuit] of the text.
pub fn show_circuit_json(alloc: Global, text: &[u8]) -> Result<Vec<u8>, Refusal>
    ensures answer { IfOk result (λ output. IsCircuitShowJsonAnswer text.now output.items) }
    ensures refused { IfErr result (IsReadCircuitRefusal text.now) }
{
    let circuit = read_aiger(alloc, text)?;
    sizes_object(alloc, &circuit)
}

/// Returns the object of a circuit.
fn sizes_object(alloc: Global, circuit: &Circuit) -> Result<Vec<u8>, Refusal>
    ensures text { IfOk result (λ output. output.items ≡ sizes_object circuit.now) }
    ensures memory { IsOkUnless result Refusal.Memory }
{
    let mut out = Vec::new(alloc);
    append_count(b"{\"inputs\":", circuit.inputs().len(), &mut out)?;
    append_count(b",\"latches\":", circuit.latches().len(), &mut out)?;
    append_count(b",\"outputs\":", circuit.outputs().len(), &mut out)?;
    append_count(b",\"gates\":", circuit.gates().len(), &mut out)?;
    out.extend_from_slice(b"}\n")?;
    Ok(out)
}
