//! The lasso text in a walk's text.
ghost use Rattle.std.specs.Prelude.{◌≡◌, IfOk, IsOkUnless};
ghost use Rattle.omega_answers_walk.specs.Covered.{lasso_in, left_from, shown};

use crate::sizes::{front_size, quoted_size};
use omega_text::Refusal;
use std::alloc::Global;

/// Returns `bytes` with spaces in place of the lines before the stem and of each name in double quotes.
pub(crate) fn lasso_in(alloc: Global, bytes: &[u8]) -> Result<Vec<u8>, Refusal>
    ensures text { IfOk result (λ text. text.items ≡ lasso_in bytes.now) }
    ensures memory { IsOkUnless result Refusal.Memory }
{
    let mut out = Vec::with_capacity(alloc, bytes.len())?;
    let mut left = front_size(bytes);
    for at in 0..bytes.len() {
        let now = left_from(left, &bytes[at..]);
        out.push(covered_byte(now, bytes[at]))?;
        left = now.saturating_sub(1);
    }
    Ok(out)
}

/// Returns how many of `bytes` are to be covered from the first one on, if `left` are of what began before.
fn left_from(left: usize, bytes: &[u8]) -> usize
    ensures { result ≡ left_from left bytes.now }
{
    if left == 0 { quoted_size(bytes) } else { left }
}

/// Returns what stands for `byte` if `now` bytes are to be covered from it on: itself, or a space.
fn covered_byte(now: usize, byte: u8) -> u8
    ensures { result ≡ shown now byte }
{
    if now == 0 { byte } else { b' ' }
}
