//! The body of a text in the binary form, in which inputs, latches and gates have the variables in order.

ghost use Rattle.std.specs.Prelude.{◌≡◌, ◌≤◌, ◌^◌, [], ℕ, List, IfErr, IfOk, length};
ghost use Rattle.omega_aiger.specs.Deltas.{left_operand, literal_of, right_operand};
ghost use Rattle.omega_aiger.specs.Forms.{first_literals};
ghost use Rattle.omega_aiger.specs.Layout.{Layout};
ghost use Rattle.omega_aiger.specs.Lines.{gate_deltas, next_lines, two_deltas};
ghost use Rattle.omega_aiger.specs.private.Outcome.{GoesOn, Stops};
ghost use Rattle.omega_circuit.specs.Limits.{most_variables};
ghost use Rattle.omega_circuit.specs.declared.gate.Gate.{Gate};
ghost use Rattle.omega_circuit.specs.declared.latch.Latch.{Latch};

use crate::ascii::next_at;
use crate::delta::delta_at;
use omega_circuit::{Gate, Latch};
use omega_text::Refusal;
use std::alloc::{AllocError, Global};

/// A literal that is over each that a circuit may have. It stands for those that are too great, and for operands that a
/// delta puts below 0.
const NO_LITERAL: u32 = u32::MAX;

/// Returns the literals of `count` inputs, which have the first variables.
pub(crate) fn first_literals(alloc: Global, count: u32) -> Result<Vec<u32>, AllocError>
    requires { count ≤ most_variables }
    ensures { IfOk result (λ literals. literals.items ≡ first_literals count) }
{
    let mut literals = Vec::new(alloc);
    for variable in 1..count + 1 {
        literals.push(literal_of(u64::from(variable)))?;
    }
    Ok(literals)
}

/// Returns the literal of a variable, or [`NO_LITERAL`] if it is too great for one.
fn literal_of(variable: u64) -> u32
    requires { variable ≤ 2 ^ 40 }
    ensures { result ≡ literal_of variable }
{
    u32::try_from(2 * variable).unwrap_or(NO_LITERAL)
}

/// Reads `count` lines of latches, which have the variables from `variable` on: a next literal and perhaps a reset.
/// Returns them and the place after them.
pub(crate) fn latches_at(
    alloc: Global,
    text: &[u8],
    at: usize,
    variable: u64,
    count: u32,
) -> Result<(Vec<Latch>, usize), Refusal>
    requires at { at ≤ length text.now }
    requires variable { variable ≤ 2 ^ 33 }
    ensures within { IfOk result (λ found. found.1 ≤ length text.now) }
    ensures count { IfOk result (λ found. length found.0.items ≡ count) }
    ensures read { IfOk result (λ found. (next : List Latch → Layout)
        → GoesOn text.now at (next_lines variable count [] next) found.1 (next found.0.items)) }
    ensures stops { IfErr result (λ refusal. (next : List Latch → Layout)
        → Stops text.now at (next_lines variable count [] next) refusal) }
{
    let mut latches = Vec::new(alloc);
    let mut end = at;
    for k in 0..count {
        let (next, reset, after) = next_at(text, end)?;
        let literal = literal_of(variable + u64::from(k));
        latches.push(Latch {
            literal,
            next,
            reset,
        })?;
        end = after;
    }
    Ok((latches, end))
}

/// Reads the deltas of `count` gates, which have the variables from `variable` on. Returns the gates and the place
/// after them.
pub(crate) fn gates_at(
    alloc: Global,
    text: &[u8],
    at: usize,
    variable: u64,
    count: u32,
) -> Result<(Vec<Gate>, usize), Refusal>
    requires at { at ≤ length text.now }
    requires variable { variable ≤ 2 ^ 33 }
    ensures within { IfOk result (λ found. found.1 ≤ length text.now) }
    ensures count { IfOk result (λ found. length found.0.items ≡ count) }
    ensures read { IfOk result (λ found. (next : List Gate → Layout)
        → GoesOn text.now at (gate_deltas variable count [] next) found.1 (next found.0.items)) }
    ensures stops { IfErr result (λ refusal. (next : List Gate → Layout)
        → Stops text.now at (gate_deltas variable count [] next) refusal) }
{
    let mut gates = Vec::new(alloc);
    let mut end = at;
    for k in 0..count {
        let (gate, after) = gate_at(text, end, literal_of(variable + u64::from(k)))?;
        gates.push(gate)?;
        end = after;
    }
    Ok((gates, end))
}

/// Reads the deltas of the gate with this literal. Returns it and the place after them.
fn gate_at(text: &[u8], at: usize, literal: u32) -> Result<(Gate, usize), Refusal>
    requires { at ≤ length text.now }
    ensures within { IfOk result (λ found. found.1 ≤ length text.now) }
    ensures read { IfOk result (λ found. (next : Gate → Layout)
        → GoesOn text.now at (two_deltas literal next) found.1 (next found.0)) }
    ensures stops { IfErr result (λ refusal. (next : Gate → Layout)
        → Stops text.now at (two_deltas literal next) refusal) }
{
    let (first, middle) = delta_at(text, at)?;
    let (second, end) = delta_at(text, middle)?;
    let left = left_operand(literal, first);
    let right = right_operand(left, second);
    let gate = Gate {
        literal,
        left,
        right,
    };
    Ok((gate, end))
}

/// Returns the left operand of a gate: its literal less the first delta, which is neither 0 nor over the literal.
fn left_operand(literal: u32, delta: u32) -> u32
    ensures { result ≡ left_operand literal delta }
{
    if delta == 0 || literal < delta {
        NO_LITERAL
    } else {
        literal - delta
    }
}

/// Returns the right operand of a gate: the left one less the second delta, which is not over it.
fn right_operand(left: u32, delta: u32) -> u32
    ensures { result ≡ right_operand left delta }
{
    if left < delta {
        NO_LITERAL
    } else {
        left - delta
    }
}
