//! The first line of a text, with its counts.

ghost use Rattle.std.specs.Prelude.{◌≡◌, ◌≤◌, [], ℕ, List, IfErr, IfOk, length};
ghost use Rattle.omega_aiger.specs.Forms.{Counts, counts_end, counts_then, form_layout};
ghost use Rattle.omega_aiger.specs.Layout.{Layout};
ghost use Rattle.omega_aiger.specs.private.Headers.{body_of, header_counts};
ghost use Rattle.omega_aiger.specs.private.Outcome.{GoesOn, Stops};

use crate::line::{LINE_FEED, SPACE, end_of_byte, end_of_bytes, next_is};
use crate::number::{count_at, number_at};
use omega_text::Refusal;
use std::alloc::Global;

/// The most counts of properties in a header.
const MOST_PROPERTY_COUNTS: usize = 4;

/// Whether a text is in the ASCII form or in the binary form.
#[derive(Clone, Copy, Debug, PartialEq, Eq)]
pub(crate) enum Form {
    /// `aag`
    Ascii,
    /// `aig`
    Binary,
}

/// The counts of a header.
#[derive(Debug, Drop)]
pub(crate) struct Header {
    pub(crate) most_variable: u32,
    pub(crate) inputs: u32,
    pub(crate) latches: u32,
    pub(crate) outputs: u32,
    pub(crate) gates: u32,
    /// Those of bad states, constraints, justice and fairness that are written.
    pub(crate) properties: Vec<u32>,
}

/// Reads `aag` or `aig` at the place `at`. Returns the form and the place after it.
pub(crate) fn form_at(text: &[u8], at: usize) -> Result<(Form, usize), Refusal>
    requires { at ≤ length text.now }
    ensures within { IfOk result (λ found. found.1 ≤ length text.now) }
    ensures read { IfOk result (λ found.
        GoesOn text.now at form_layout found.1 (counts_then (body_of found.0))) }
    ensures stops { IfErr result (Stops text.now at form_layout) }
{
    let second = end_of_byte(text, at, b'a')?;
    if next_is(text, second, b'i') {
        let end = end_of_byte(text, second + 1, b'g')?;
        return Ok((Form::Binary, end));
    }
    let end = end_of_bytes(text, second, b"ag")?;
    Ok((Form::Ascii, end))
}

/// Reads the counts of a header at the place `at`. Returns them and the place after the line.
pub(crate) fn header_at(alloc: Global, text: &[u8], at: usize) -> Result<(Header, usize), Refusal>
    requires { at ≤ length text.now }
    ensures within { IfOk result (λ found. found.1 ≤ length text.now) }
    ensures read { IfOk result (λ found. (next : Counts → Layout)
        → GoesOn text.now at (counts_then next) found.1 (next (header_counts found.0))) }
    ensures stops { IfErr result (λ refusal. (next : Counts → Layout)
        → Stops text.now at (counts_then next) refusal) }
{
    let (most_variable, at) = count_at(text, at)?;
    let (inputs, at) = count_at(text, at)?;
    let (latches, at) = count_at(text, at)?;
    let (outputs, at) = count_at(text, at)?;
    let (gates, at) = count_at(text, at)?;
    let (properties, at) = property_counts(alloc, text, at)?;
    let header = Header {
        most_variable,
        inputs,
        latches,
        outputs,
        gates,
        properties,
    };
    Ok((header, at))
}

/// Reads at most four counts with a space before each, and a line feed. Returns them and the place after the line.
fn property_counts(alloc: Global, text: &[u8], at: usize) -> Result<(Vec<u32>, usize), Refusal>
    requires { at ≤ length text.now }
    ensures within { IfOk result (λ found. found.1 ≤ length text.now) }
    ensures read { IfOk result (λ found. (next : List ℕ → Layout)
        → GoesOn text.now at (counts_end 4 [] next) found.1 (next found.0.items)) }
    ensures stops { IfErr result (λ refusal. (next : List ℕ → Layout)
        → Stops text.now at (counts_end 4 [] next) refusal) }
{
    let mut counts = Vec::with_capacity(alloc, MOST_PROPERTY_COUNTS)?;
    let mut end = at;
    for _ in 0..MOST_PROPERTY_COUNTS {
        if !next_is(text, end, SPACE) {
            let after = end_of_byte(text, end, LINE_FEED)?;
            return Ok((counts, after));
        }
        let (count, after) = number_at(text, end + 1)?;
        counts.push(count)?;
        end = after;
    }
    let after = end_of_byte(text, end, LINE_FEED)?;
    Ok((counts, after))
}
