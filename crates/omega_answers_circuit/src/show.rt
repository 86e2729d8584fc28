ghost use Rattle.std.specs.Prelude.{◌≡◌, ◌++◌, IfErr, IfOk, IsOkUnless, OnOk};
ghost use Rattle.omega_aiger.specs.Text.{IsReadCircuitRefusal};
ghost use Rattle.omega_answers_circuit.specs.Show.{IsCircuitShowAnswer, count_text, sizes_line};
ghost use Rattle.omega_text.specs.declared.refusal.Refusal.{Refusal};

use omega_aiger::read_aiger;
use omega_circuit::Circuit;
use omega_text::{Refusal, write_number};
use std::alloc::Global;

/// Returns a line with the numbers of inputs, latches, outputs and gates of the circuit of `text`, in expected linear
/// time. Fails with the [Refusal::Text] or [Refusal::Circuit] of the text.
pub fn show_circuit(alloc: Global, text: &[u8]) -> Result<Vec<u8>, Refusal>
    ensures answer { IfOk result (λ output. IsCircuitShowAnswer text.now output.items) }
    ensures refused { IfErr result (IsReadCircuitRefusal text.now) }
{
    let circuit = read_aiger(alloc, text)?;
    sizes_line(alloc, &circuit)
}

/// Returns the line of a circuit.
fn sizes_line(alloc: Global, circuit: &Circuit) -> Result<Vec<u8>, Refusal>
    ensures text { IfOk result (λ output. output.items ≡ sizes_line circuit.now) }
    ensures memory { IsOkUnless result Refusal.Memory }
{
    let mut out = Vec::new(alloc);
    append_count(b"circuit inputs ", circuit.inputs().len(), &mut out)?;
    append_count(b" latches ", circuit.latches().len(), &mut out)?;
    append_count(b" outputs ", circuit.outputs().len(), &mut out)?;
    append_count(b" gates ", circuit.gates().len(), &mut out)?;
    out.extend_from_slice(b"\n")?;
    Ok(out)
}

/// Appends the name of what is counted, and the count.
pub(crate) fn append_count(what: &[u8], count: usize, out: &mut Vec<u8>) -> Result<(), Refusal>
    ensures text { OnOk result (out.new.items ≡ out.old.items ++ count_text what.now count) }
    ensures memory { IsOkUnless result Refusal.Memory }
{
    out.extend_from_slice(what)?;
    write_number(count as u128, out)
}
