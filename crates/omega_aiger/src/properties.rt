//! The lines of properties.

ghost use Rattle.std.specs.Prelude.{◌≡◌, ◌≤◌, IfErr, IfOk, length, slice_index, sum};
ghost use Rattle.omega_aiger.specs.Forms.{properties_then};
ghost use Rattle.omega_aiger.specs.Layout.{Layout};
ghost use Rattle.omega_aiger.specs.private.Outcome.{GoesOn, Stops};
ghost use Rattle.omega_circuit.specs.declared.properties.Properties.{Properties};
ghost use Rattle.omega_text.specs.Limits.{most_text};

use crate::ascii::numbers_at;
use omega_circuit::Properties;
use omega_text::{Refusal, Seq};
use std::alloc::Global;

/// Reads the lines of properties, of which a header has these counts. Returns them and the place after them.
pub(crate) fn properties_at(
    alloc: Global,
    text: &[u8],
    at: usize,
    counts: &[u32],
) -> Result<(Properties, usize), Refusal>
    requires at { at ≤ length text.now }
    requires short { length text.now ≤ most_text }
    ensures within { IfOk result (λ found. found.1 ≤ length text.now) }
    ensures read { IfOk result (λ found. (next : Properties → Layout)
        → GoesOn text.now at (properties_then counts.now next) found.1 (next found.0)) }
    ensures stops { IfErr result (λ refusal. (next : Properties → Layout)
        → Stops text.now at (properties_then counts.now next) refusal) }
{
    let (bad, at) = numbers_at(alloc, text, at, count_of(counts, 0))?;
    let (constraints, at) = numbers_at(alloc, text, at, count_of(counts, 1))?;
    let (sizes, at) = numbers_at(alloc, text, at, count_of(counts, 2))?;
    let (justice, at) = numbers_at(alloc, text, at, sum_of(sizes.as_slice()))?;
    let (fairness, at) = numbers_at(alloc, text, at, count_of(counts, 3))?;
    let properties = Properties {
        bad: Seq::from_vec(bad),
        constraints: Seq::from_vec(constraints),
        justice_sizes: Seq::from_vec(sizes),
        justice: Seq::from_vec(justice),
        fairness: Seq::from_vec(fairness),
    };
    Ok((properties, at))
}

/// Returns the count at this place, or 0 if it is not written.
fn count_of(counts: &[u32], place: usize) -> u64
    ensures { result ≡ slice_index counts.now place }
{
    match counts.get(place) {
        Some(count) => u64::from(*count),
        None => 0,
    }
}

/// Returns the sum of sizes, which are so few that it has a value.
fn sum_of(sizes: &[u32]) -> u64
    requires { length sizes.now ≤ most_text }
    ensures { result ≡ sum sizes.now }
{
    let mut sum = 0u64;
    for size in sizes {
        sum += u64::from(*size);
    }
    sum
}
