//! Lines of numbers: the body of a text in the ASCII form, and most of the body of one in the binary form.

ghost use Rattle.std.specs.Prelude.{◌≡◌, ◌≤◌, [], ℕ, List, IfErr, IfOk, length};
ghost use Rattle.omega_aiger.specs.Layout.{Layout};
ghost use Rattle.omega_aiger.specs.Lines.{gate_line, gate_lines, latch_line, latch_lines, next_line};
ghost use Rattle.omega_aiger.specs.Lines.{number_lines, reset_end};
ghost use Rattle.omega_aiger.specs.private.Outcome.{GoesOn, Stops};
ghost use Rattle.omega_circuit.specs.declared.gate.Gate.{Gate};
ghost use Rattle.omega_circuit.specs.declared.latch.Latch.{Latch};

use crate::line::{LINE_FEED, SPACE, end_of_byte, next_is};
use crate::number::{number_at, number_before};
use omega_circuit::{Gate, Latch};
use omega_text::Refusal;
use std::alloc::Global;

/// Reads `count` lines of one number each. Returns them and the place after them.
pub(crate) fn numbers_at(
    alloc: Global,
    text: &[u8],
    at: usize,
    count: u64,
) -> Result<(Vec<u32>, usize), Refusal>
    requires { at ≤ length text.now }
    ensures within { IfOk result (λ found. found.1 ≤ length text.now) }
    ensures count { IfOk result (λ found. length found.0.items ≡ count) }
    ensures room { IfOk result (λ found. length found.0.items ≤ length text.now) }
    ensures read { IfOk result (λ found. (next : List ℕ → Layout)
        → GoesOn text.now at (number_lines count [] next) found.1 (next found.0.items)) }
    ensures stops { IfErr result (λ refusal. (next : List ℕ → Layout)
        → Stops text.now at (number_lines count [] next) refusal) }
{
    let mut numbers = Vec::new(alloc);
    let mut end = at;
    for _ in 0..count {
        let (number, after) = number_before(text, end, LINE_FEED)?;
        numbers.push(number)?;
        end = after;
    }
    Ok((numbers, end))
}

/// Reads `count` lines of latches: a literal, its next one and perhaps a reset. Returns them and the place after them.
pub(crate) fn latches_at(
    alloc: Global,
    text: &[u8],
    at: usize,
    count: u32,
) -> Result<(Vec<Latch>, usize), Refusal>
    requires { at ≤ length text.now }
    ensures within { IfOk result (λ found. found.1 ≤ length text.now) }
    ensures read { IfOk result (λ found. (next : List Latch → Layout)
        → GoesOn text.now at (latch_lines count [] next) found.1 (next found.0.items)) }
    ensures stops { IfErr result (λ refusal. (next : List Latch → Layout)
        → Stops text.now at (latch_lines count [] next) refusal) }
{
    let mut latches = Vec::new(alloc);
    let mut end = at;
    for _ in 0..count {
        let (latch, after) = latch_at(text, end)?;
        latches.push(latch)?;
        end = after;
    }
    Ok((latches, end))
}

/// Reads the line of a latch. Returns it and the place after the line.
fn latch_at(text: &[u8], at: usize) -> Result<(Latch, usize), Refusal>
    requires { at ≤ length text.now }
    ensures within { IfOk result (λ found. found.1 ≤ length text.now) }
    ensures read { IfOk result (λ found. (next : Latch → Layout)
        → GoesOn text.now at (latch_line next) found.1 (next found.0)) }
    ensures stops { IfErr result (λ refusal. (next : Latch → Layout)
        → Stops text.now at (latch_line next) refusal) }
{
    let (literal, end) = number_before(text, at, SPACE)?;
    let (next, reset, end) = next_at(text, end)?;
    let latch = Latch {
        literal,
        next,
        reset,
    };
    Ok((latch, end))
}

/// Reads the next literal of a latch and its reset, up to the end of the line. Returns both and the place after the
/// line.
pub(crate) fn next_at(text: &[u8], at: usize) -> Result<(u32, u32, usize), Refusal>
    requires { at ≤ length text.now }
    ensures within { IfOk result (λ found. found.2 ≤ length text.now) }
    ensures read { IfOk result (λ found. (next : ℕ → ℕ → Layout)
        → GoesOn text.now at (next_line next) found.2 (next found.0 found.1)) }
    ensures stops { IfErr result (λ refusal. (next : ℕ → ℕ → Layout)
        → Stops text.now at (next_line next) refusal) }
{
    let (next, end) = number_at(text, at)?;
    let (reset, end) = reset_at(text, end)?;
    Ok((next, reset, end))
}

/// Reads the rest of a latch's line: a line feed, or a space, a reset and a line feed. Returns the reset, which is 0 if
/// none is there, and the place after the line.
fn reset_at(text: &[u8], at: usize) -> Result<(u32, usize), Refusal>
    requires { at ≤ length text.now }
    ensures within { IfOk result (λ found. found.1 ≤ length text.now) }
    ensures read { IfOk result (λ found. (next : ℕ → Layout)
        → GoesOn text.now at (reset_end next) found.1 (next found.0)) }
    ensures stops { IfErr result (λ refusal. (next : ℕ → Layout)
        → Stops text.now at (reset_end next) refusal) }
{
    if next_is(text, at, SPACE) {
        return number_before(text, at + 1, LINE_FEED);
    }
    let end = end_of_byte(text, at, LINE_FEED)?;
    Ok((0, end))
}

/// Reads `count` lines of gates: a literal and its two operands. Returns them and the place after them.
pub(crate) fn gates_at(
    alloc: Global,
    text: &[u8],
    at: usize,
    count: u32,
) -> Result<(Vec<Gate>, usize), Refusal>
    requires { at ≤ length text.now }
    ensures within { IfOk result (λ found. found.1 ≤ length text.now) }
    ensures read { IfOk result (λ found. (next : List Gate → Layout)
        → GoesOn text.now at (gate_lines count [] next) found.1 (next found.0.items)) }
    ensures stops { IfErr result (λ refusal. (next : List Gate → Layout)
        → Stops text.now at (gate_lines count [] next) refusal) }
{
    let mut gates = Vec::new(alloc);
    let mut end = at;
    for _ in 0..count {
        let (gate, after) = gate_at(text, end)?;
        gates.push(gate)?;
        end = after;
    }
    Ok((gates, end))
}

/// Reads the line of a gate. Returns it and the place after the line.
fn gate_at(text: &[u8], at: usize) -> Result<(Gate, usize), Refusal>
    requires { at ≤ length text.now }
    ensures within { IfOk result (λ found. found.1 ≤ length text.now) }
    ensures read { IfOk result (λ found. (next : Gate → Layout)
        → GoesOn text.now at (gate_line next) found.1 (next found.0)) }
    ensures stops { IfErr result (λ refusal. (next : Gate → Layout)
        → Stops text.now at (gate_line next) refusal) }
{
    let (literal, end) = number_before(text, at, SPACE)?;
    let (left, end) = number_before(text, end, SPACE)?;
    let (right, end) = number_before(text, end, LINE_FEED)?;
    let gate = Gate {
        literal,
        left,
        right,
    };
    Ok((gate, end))
}
