//! How a text is read.

ghost use Rattle.std.specs.Prelude.{◌≡◌, ◌≤◌, true, false, Ok, IfErr, IfOk, drop, length};
ghost use Rattle.omega_aiger.specs.Forms.{ascii_body, binary_body, circuit_layout, form_layout};
ghost use Rattle.omega_aiger.specs.Text.{IsCircuitText, IsPartsText, IsReadCircuitRefusal};
ghost use Rattle.omega_aiger.specs.private.Headers.{IsDense, header_counts};
ghost use Rattle.omega_aiger.specs.private.Outcome.{Fails, GoesOn, Stops, outcome};
ghost use Rattle.omega_text.specs.Limits.{most_text};

use crate::header::{Form, Header, form_at, header_at};
use crate::line::{end_of_bytes, next_is};
use crate::properties::properties_at;
use crate::symbols::symbols_from;
use crate::{ascii, binary};
use omega_circuit::{Circuit, CircuitParts, MOST_VARIABLES, circuit_of};
use omega_text::{CircuitFault, MOST_TEXT, Refusal, Seq, TextFault};
use std::alloc::Global;

/// Returns the circuit of a text in the ASCII or in the binary form. A first line `REALIZABLE`, as tools for synthesis
/// write it, is passed over. Takes expected linear time, and memory by the bytes that are there and not by the counts
/// of the header.
///
/// Fails with [TextFault::TooLong] if the text has over 16,777,216 bytes. Otherwise fails with [TextFault::Number] at
/// the first byte of a number that is none of the format, or with [TextFault::Syntax] at the first byte through which
/// no text begins, or at the length of the text if it ends too early. Otherwise fails with the least [CircuitFault]
/// that applies.
pub fn read_aiger(alloc: Global, text: &[u8]) -> Result<Circuit, Refusal>
    ensures circuit { IfOk result (IsCircuitText text.now) }
    ensures refused { IfErr result (IsReadCircuitRefusal text.now) }
{
    let parts = parts_of(alloc, text)?;
    circuit_of(alloc, parts)
}

/// Returns the parts of a circuit that a text says.
fn parts_of(alloc: Global, text: &[u8]) -> Result<CircuitParts, Refusal>
    ensures parts { IfOk result (λ parts. IsPartsText text.now parts) }
    ensures refused { IfErr result (IsReadCircuitRefusal text.now) }
{
    if text.len() > MOST_TEXT {
        return Err(Refusal::Text(TextFault::TooLong));
    }
    read_parts(alloc, text)
}

/// Reads the parts of a text that is not too long.
fn read_parts(alloc: Global, text: &[u8]) -> Result<CircuitParts, Refusal>
    requires { length text.now ≤ most_text }
    ensures parts { IfOk result (λ parts. outcome circuit_layout 0 text.now ≡ Ok parts) }
    ensures fails { IfErr result (Fails text.now 0 circuit_layout) }
{
    let start = start_of(text)?;
    let (form, at) = form_at(text, start)?;
    let (header, at) = header_at(alloc, text, at)?;
    match form {
        Form::Ascii => ascii_parts(alloc, text, at, &header),
        Form::Binary => binary_parts(alloc, text, at, &header),
    }
}

/// Returns the place of the header: the beginning, or after the line `REALIZABLE`.
fn start_of(text: &[u8]) -> Result<usize, Refusal>
    ensures within { IfOk result (λ start. start ≤ length text.now) }
    ensures read { IfOk result (λ start. GoesOn text.now 0 circuit_layout start form_layout) }
    ensures stops { IfErr result (Stops text.now 0 circuit_layout) }
{
    if next_is(text, 0, b'R') {
        return end_of_bytes(text, 1, b"EALIZABLE\n");
    }
    Ok(0)
}

/// Reads the rest of a text in the ASCII form.
fn ascii_parts(
    alloc: Global,
    text: &[u8],
    at: usize,
    header: &Header,
) -> Result<CircuitParts, Refusal>
    requires at { at ≤ length text.now }
    requires short { length text.now ≤ most_text }
    ensures parts { IfOk result (λ parts.
        outcome (ascii_body (header_counts header.now)) at (drop at text.now) ≡ Ok parts) }
    ensures stops { IfErr result (Stops text.now at (ascii_body (header_counts header.now))) }
{
    let (inputs, at) = ascii::numbers_at(alloc, text, at, u64::from(header.inputs))?;
    let (latches, at) = ascii::latches_at(alloc, text, at, header.latches)?;
    let (outputs, at) = ascii::numbers_at(alloc, text, at, u64::from(header.outputs))?;
    let (properties, at) = properties_at(alloc, text, at, header.properties.as_slice())?;
    let (gates, at) = ascii::gates_at(alloc, text, at, header.gates)?;
    let symbols = symbols_from(alloc, text, at)?;
    Ok(CircuitParts {
        most_variable: header.most_variable,
        is_dense: false,
        inputs: Seq::from_vec(inputs),
        latches: Seq::from_vec(latches),
        outputs: Seq::from_vec(outputs),
        gates: Seq::from_vec(gates),
        symbols: Seq::from_vec(symbols),
        properties,
    })
}

/// Reads the rest of a text in the binary form. The inputs take no bytes: so they are made only if the greatest
/// variable is within its limit and fits the counts.
fn binary_parts(
    alloc: Global,
    text: &[u8],
    at: usize,
    header: &Header,
) -> Result<CircuitParts, Refusal>
    requires at { at ≤ length text.now }
    requires short { length text.now ≤ most_text }
    ensures parts { IfOk result (λ parts.
        outcome (binary_body (header_counts header.now)) at (drop at text.now) ≡ Ok parts) }
    ensures fails { IfErr result (Fails text.now at (binary_body (header_counts header.now))) }
{
    let first_latch = u64::from(header.inputs) + 1;
    let first_gate = u64::from(header.inputs) + u64::from(header.latches) + 1;
    let (latches, at) = binary::latches_at(alloc, text, at, first_latch, header.latches)?;
    let (outputs, at) = ascii::numbers_at(alloc, text, at, u64::from(header.outputs))?;
    let (properties, at) = properties_at(alloc, text, at, header.properties.as_slice())?;
    let (gates, at) = binary::gates_at(alloc, text, at, first_gate, header.gates)?;
    let symbols = symbols_from(alloc, text, at)?;
    if !is_dense(header) {
        return Err(Refusal::Circuit(CircuitFault::Variables));
    }
    let inputs = binary::first_literals(alloc, header.inputs)?;
    Ok(CircuitParts {
        most_variable: header.most_variable,
        is_dense: true,
        inputs: Seq::from_vec(inputs),
        latches: Seq::from_vec(latches),
        outputs: Seq::from_vec(outputs),
        gates: Seq::from_vec(gates),
        symbols: Seq::from_vec(symbols),
        properties,
    })
}

/// Whether the greatest variable is within its limit, and as many variables are defined.
fn is_dense(header: &Header) -> bool
    ensures dense { result ≡ true → IsDense (header_counts header.now) }
    ensures sparse { result ≡ false → IsDense (header_counts header.now) → ⊥ }
{
    let gates = u64::from(header.gates);
    let defined = u64::from(header.inputs) + u64::from(header.latches) + gates;
    header.most_variable <= MOST_VARIABLES && u64::from(header.most_variable) == defined
}
