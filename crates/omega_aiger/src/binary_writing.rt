//! The text of a circuit in the binary form.

ghost use Rattle.std.specs.Prelude.{◌≡◌, ◌++◌, IfOk, IsOkUnless, OnOk};
ghost use Rattle.std.specs.List.{flat_map};
ghost use Rattle.omega_aiger.specs.BinaryText.{binary_counts, binary_text, delta_text, deltas_text, next_text};
ghost use Rattle.omega_text.specs.declared.refusal.Refusal.{Refusal};

use crate::delta::MOST_BYTES;
use crate::line::LINE_FEED;
use crate::writing::{write_count, write_numbers, write_reset, write_symbols};
use omega_circuit::{Circuit, Gate, Latch};
use omega_text::{Refusal, write_number};
use std::alloc::Global;

/// Returns the text of a circuit in the binary form, which has no literals of inputs, latches and gates: it says the
/// circuit if that is in canonical form, as [`canonical_circuit`](omega_circuit::canonical_circuit) returns it. Takes
/// linear time.
pub fn aig_text(alloc: Global, circuit: &Circuit) -> Result<Vec<u8>, Refusal>
    ensures text { IfOk result (λ text. text.items ≡ binary_text circuit.now) }
    ensures memory { IsOkUnless result Refusal.Memory }
{
    let mut out = Vec::new(alloc);
    write_counts(circuit, &mut out)?;
    write_nexts(circuit.latches(), &mut out)?;
    write_numbers(circuit.outputs(), &mut out)?;
    write_deltas(circuit.gates(), &mut out)?;
    write_symbols(circuit.symbols(), &mut out)?;
    Ok(out)
}

/// Appends the first line.
fn write_counts(circuit: &Circuit, out: &mut Vec<u8>) -> Result<(), Refusal>
    ensures ok { OnOk result (out.new.items ≡ out.old.items ++ binary_counts circuit.now) }
    ensures memory { IsOkUnless result Refusal.Memory }
{
    let inputs = circuit.inputs().len() as u128;
    let latches = circuit.latches().len() as u128;
    let gates = circuit.gates().len() as u128;
    out.extend_from_slice(b"aig")?;
    write_count(inputs + latches + gates, out)?;
    write_count(inputs, out)?;
    write_count(latches, out)?;
    write_count(circuit.outputs().len() as u128, out)?;
    write_count(gates, out)?;
    out.push(LINE_FEED)?;
    Ok(())
}

/// Appends lines of latches without their literals.
fn write_nexts(latches: &[Latch], out: &mut Vec<u8>) -> Result<(), Refusal>
    ensures ok { OnOk result (out.new.items ≡ out.old.items ++ flat_map next_text latches.now) }
    ensures memory { IsOkUnless result Refusal.Memory }
{
    for latch in latches {
        write_next(*latch, out)?;
    }
    Ok(())
}

/// Appends the line of a latch without its literal.
fn write_next(latch: Latch, out: &mut Vec<u8>) -> Result<(), Refusal>
    ensures ok { OnOk result (out.new.items ≡ out.old.items ++ next_text latch) }
    ensures memory { IsOkUnless result Refusal.Memory }
{
    write_number(latch.next as u128, out)?;
    write_reset(latch.reset, out)
}

/// Appends the deltas of gates.
fn write_deltas(gates: &[Gate], out: &mut Vec<u8>) -> Result<(), Refusal>
    ensures ok { OnOk result (out.new.items ≡ out.old.items ++ flat_map deltas_text gates.now) }
    ensures memory { IsOkUnless result Refusal.Memory }
{
    for gate in gates {
        write_gate_deltas(*gate, out)?;
    }
    Ok(())
}

/// Appends the two deltas of a gate.
fn write_gate_deltas(gate: Gate, out: &mut Vec<u8>) -> Result<(), Refusal>
    ensures ok { OnOk result (out.new.items ≡ out.old.items ++ deltas_text gate) }
    ensures memory { IsOkUnless result Refusal.Memory }
{
    write_delta(gate.literal.saturating_sub(gate.left), out)?;
    write_delta(gate.left.saturating_sub(gate.right), out)
}

/// Appends a number with seven bits a byte, the lowest first, all bytes but the last with the high bit set.
fn write_delta(delta: u32, out: &mut Vec<u8>) -> Result<(), Refusal>
    ensures ok { OnOk result (out.new.items ≡ out.old.items ++ delta_text delta) }
    ensures memory { IsOkUnless result Refusal.Memory }
{
    let mut rest = delta;
    for _byte in 0..MOST_BYTES - 1 {
        if rest < 128 {
            out.push(rest as u8)?;
            return Ok(());
        }
        out.push((rest % 128 + 128) as u8)?;
        rest /= 128;
    }
    out.push((rest % 128) as u8)?;
    Ok(())
}
