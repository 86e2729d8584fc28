//! The text of a circuit in the ASCII form.

ghost use Rattle.std.specs.Prelude.{◌≡◌, ◌++◌, ◌∷◌, [], decimal, length, map, IfOk, IsOkUnless, OnOk};
ghost use Rattle.std.specs.List.{flat_map};
ghost use Rattle.omega_aiger.specs.Written.{ascii_text, count_text, gate_text, greatest, latch_text};
ghost use Rattle.omega_aiger.specs.Written.{most_variable_of, number_text, reset_text, symbol_text};
ghost use Rattle.omega_circuit.specs.declared.gate.Gate.{Gate};
ghost use Rattle.omega_circuit.specs.declared.latch.Latch.{Latch};
ghost use Rattle.omega_text.specs.declared.refusal.Refusal.{Refusal};

use crate::line::{LINE_FEED, SPACE};
use omega_circuit::{Circuit, Gate, Latch, Symbol};
use omega_text::{Refusal, write_number};
use std::alloc::Global;

/// Returns the text of a circuit in the ASCII form: inputs, latches, outputs, gates and symbols in their own order,
/// with the literals that they have. The greatest variable of the header is that of the circuit. Takes linear time.
pub fn aag_text(alloc: Global, circuit: &Circuit) -> Result<Vec<u8>, Refusal>
    ensures text { IfOk result (λ text. text.items ≡ ascii_text circuit.now) }
    ensures memory { IsOkUnless result Refusal.Memory }
{
    let mut out = Vec::new(alloc);
    out.extend_from_slice(b"aag")?;
    write_count(most_variable(circuit), &mut out)?;
    write_count(circuit.inputs().len() as u128, &mut out)?;
    write_count(circuit.latches().len() as u128, &mut out)?;
    write_count(circuit.outputs().len() as u128, &mut out)?;
    write_count(circuit.gates().len() as u128, &mut out)?;
    out.push(LINE_FEED)?;
    write_numbers(circuit.inputs(), &mut out)?;
    write_latches(circuit.latches(), &mut out)?;
    write_numbers(circuit.outputs(), &mut out)?;
    write_gates(circuit.gates(), &mut out)?;
    write_symbols(circuit.symbols(), &mut out)?;
    Ok(out)
}

/// Returns the greatest variable of a circuit, or the number of its definitions if that is greater.
fn most_variable(circuit: &Circuit) -> u128
    ensures { result ≡ most_variable_of circuit.now }
{
    let defined = circuit.inputs().len() as u128
        + circuit.latches().len() as u128
        + circuit.gates().len() as u128;
    let literal = greatest(circuit.inputs()).max(greatest_latch(circuit.latches()).max(
        greatest_gate(circuit.gates()),
    ));
    defined.max((literal / 2) as u128)
}

/// Returns the greatest of numbers, or 0.
fn greatest(numbers: &[u32]) -> u32
    ensures { result ≡ greatest numbers.now }
{
    let mut most = 0;
    for number in numbers {
        most = most.max(*number);
    }
    most
}

/// Returns the greatest literal of latches, or 0.
fn greatest_latch(latches: &[Latch]) -> u32
    ensures { result ≡ greatest (map (λ (latch : Latch). latch.literal) latches.now) }
{
    let mut most = 0;
    for latch in latches {
        most = most.max(latch.literal);
    }
    most
}

/// Returns the greatest literal of gates, or 0.
fn greatest_gate(gates: &[Gate]) -> u32
    ensures { result ≡ greatest (map (λ (gate : Gate). gate.literal) gates.now) }
{
    let mut most = 0;
    for gate in gates {
        most = most.max(gate.literal);
    }
    most
}

/// Appends a space and a count.
pub(crate) fn write_count(count: u128, out: &mut Vec<u8>) -> Result<(), Refusal>
    ensures ok { OnOk result (out.new.items ≡ out.old.items ++ count_text count) }
    ensures memory { IsOkUnless result Refusal.Memory }
{
    out.push(SPACE)?;
    write_number(count, out)
}

/// Appends a number and the byte after it.
fn write_before(number: u32, ender: u8, out: &mut Vec<u8>) -> Result<(), Refusal>
    ensures ok { OnOk result (out.new.items ≡ out.old.items ++ (decimal number ++ ender ∷ [])) }
    ensures memory { IsOkUnless result Refusal.Memory }
{
    write_number(number as u128, out)?;
    out.push(ender)?;
    Ok(())
}

/// Appends lines of numbers.
pub(crate) fn write_numbers(numbers: &[u32], out: &mut Vec<u8>) -> Result<(), Refusal>
    ensures ok { OnOk result (out.new.items ≡ out.old.items ++ flat_map number_text numbers.now) }
    ensures memory { IsOkUnless result Refusal.Memory }
{
    for number in numbers {
        write_before(*number, LINE_FEED, out)?;
    }
    Ok(())
}

/// Appends lines of latches.
fn write_latches(latches: &[Latch], out: &mut Vec<u8>) -> Result<(), Refusal>
    ensures ok { OnOk result (out.new.items ≡ out.old.items ++ flat_map latch_text latches.now) }
    ensures memory { IsOkUnless result Refusal.Memory }
{
    for latch in latches {
        write_latch(*latch, out)?;
    }
    Ok(())
}

/// Appends the line of a latch.
fn write_latch(latch: Latch, out: &mut Vec<u8>) -> Result<(), Refusal>
    ensures ok { OnOk result (out.new.items ≡ out.old.items ++ latch_text latch) }
    ensures memory { IsOkUnless result Refusal.Memory }
{
    write_before(latch.literal, SPACE, out)?;
    write_number(latch.next as u128, out)?;
    write_reset(latch.reset, out)
}

/// Appends the end of a latch's line, with its reset if that is not 0.
pub(crate) fn write_reset(reset: u32, out: &mut Vec<u8>) -> Result<(), Refusal>
    ensures ok { OnOk result (out.new.items ≡ out.old.items ++ reset_text reset) }
    ensures memory { IsOkUnless result Refusal.Memory }
{
    if reset == 0 {
        out.push(LINE_FEED)?;
        return Ok(());
    }
    out.push(SPACE)?;
    write_before(reset, LINE_FEED, out)
}

/// Appends lines of gates.
fn write_gates(gates: &[Gate], out: &mut Vec<u8>) -> Result<(), Refusal>
    ensures ok { OnOk result (out.new.items ≡ out.old.items ++ flat_map gate_text gates.now) }
    ensures memory { IsOkUnless result Refusal.Memory }
{
    for gate in gates {
        write_gate(*gate, out)?;
    }
    Ok(())
}

/// Appends the line of a gate.
fn write_gate(gate: Gate, out: &mut Vec<u8>) -> Result<(), Refusal>
    ensures ok { OnOk result (out.new.items ≡ out.old.items ++ gate_text gate) }
    ensures memory { IsOkUnless result Refusal.Memory }
{
    write_before(gate.literal, SPACE, out)?;
    write_before(gate.left, SPACE, out)?;
    write_before(gate.right, LINE_FEED, out)
}

/// Appends lines of symbols.
pub(crate) fn write_symbols(symbols: &[Symbol], out: &mut Vec<u8>) -> Result<(), Refusal>
    ensures ok { OnOk result (out.new.items ≡ out.old.items ++ flat_map symbol_text symbols.now) }
    ensures memory { IsOkUnless result Refusal.Memory }
{
    for symbol in symbols {
        write_symbol(symbol, out)?;
    }
    Ok(())
}

/// Appends the line of a symbol.
fn write_symbol(symbol: &Symbol, out: &mut Vec<u8>) -> Result<(), Refusal>
    ensures ok { OnOk result (out.new.items ≡ out.old.items ++ symbol_text symbol.now) }
    ensures memory { IsOkUnless result Refusal.Memory }
{
    out.push(symbol.kind.letter())?;
    write_before(symbol.position, SPACE, out)?;
    out.extend_from_slice(symbol.name.as_slice())?;
    out.push(LINE_FEED)?;
    Ok(())
}
