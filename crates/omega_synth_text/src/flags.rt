//! Which edges are kept.

ghost use Rattle.std.specs.Prelude.{◌≡◌, ◌&&◌, ℕ, IfOk, IsOkUnless, nat_lt, slice_set, true};
ghost use Rattle.omega_graph.specs.Graph.{listed};
ghost use Rattle.omega_synth_text.specs.private.Parts.{flag};

use omega_text::Refusal;
use std::alloc::Global;

/// Returns for each of `count` edges whether its number is one of `kept`.
pub(crate) fn kept_flags(alloc: Global, count: u32, kept: &[u32]) -> Result<Vec<bool>, Refusal>
    ensures flags { IfOk result (λ flags. (number : ℕ)
        → flag flags.items number ≡ (nat_lt number count && listed kept.now number)) }
    ensures memory { IsOkUnless result Refusal.Memory }
{
    let mut flags = vec![in alloc; false; count as usize]?;
    for number in kept {
        set_flag(&mut flags, *number as usize);
    }
    Ok(flags)
}

/// Sets the flag of `number`, if there is one.
fn set_flag(flags: &mut [bool], number: usize)
    ensures { flags.new ≡ slice_set flags.old number true }
{
    if number < flags.len() {
        flags[number] = true;
    }
}
