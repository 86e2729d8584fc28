ghost use Rattle.std.specs.Prelude.{◌≡◌, ◌+◌, ◌≤◌, min, IfErr, IfOk};
ghost use Rattle.omega_hoa_expression.specs.Depth.{IsTooDeep};
ghost use Rattle.omega_hoa_expression.specs.Limits.{most_depth, past_depth};

use crate::limits::{MOST_DEPTH, PAST_DEPTH};
use omega_text::{AutomatonFault, Refusal};

/// Returns `depth` plus one, or is refused with [AutomatonFault::TooDeep] past the limit.
#[inline]
pub fn deeper(depth: u32) -> Result<u32, Refusal>
    ensures ok { IfOk result (λ more. (more ≡ depth + 1) × (more ≤ most_depth)) }
    ensures err { IfErr result (IsTooDeep (most_depth ≤ depth)) }
{
    if depth < MOST_DEPTH {
        Ok(depth + 1)
    } else {
        Err(Refusal::Automaton(AutomatonFault::TooDeep))
    }
}

/// Returns `depth` plus one, but at most just past the limit.
#[inline]
pub fn counted_deeper(depth: u32) -> u32
    ensures { result ≡ min (depth + 1) past_depth }
{
    if depth < PAST_DEPTH {
        depth + 1
    } else {
        PAST_DEPTH
    }
}
