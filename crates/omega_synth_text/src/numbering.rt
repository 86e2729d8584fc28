//! The new numbers of the states that are reached.

ghost use Rattle.std.specs.Prelude.{◌≡◌, IfOk, IsOkUnless, if◌then◌else◌, map};
ghost use Rattle.std.specs.List.{range_with_len};
ghost use Rattle.omega_synth_text.specs.Winner.{number_of};
ghost use Rattle.omega_synth_text.specs.private.Parts.{flag};

use crate::parts::is_set;
use omega_text::Refusal;
use std::alloc::Global;

/// The new numbers of states by their old ones, and how many are reached.
#[derive(Drop)]
pub(crate) struct Numbering {
    pub(crate) numbers: Vec<u32>,
    pub(crate) count: u32,
}

/// Returns for each of `states` states how many of those before it are `reached`, and how many are in all.
pub(crate) fn new_numbers(
    alloc: Global,
    states: u32,
    reached: &[bool],
) -> Result<Numbering, Refusal>
    ensures numbers { IfOk result
        (λ made. made.numbers.items ≡ map (number_of (flag reached.now)) (range_with_len 0 states)) }
    ensures count { IfOk result (λ made. made.count ≡ number_of (flag reached.now) states) }
    ensures memory { IsOkUnless result Refusal.Memory }
{
    let mut numbers = Vec::new(alloc);
    let mut count = 0;
    for state in 0..states {
        numbers.push(count)?;
        count += one_if(is_set(reached, state as usize));
    }
    Ok(Numbering { numbers, count })
}

/// Returns 1 if `flag` is set, else 0.
fn one_if(flag: bool) -> u32
    ensures { result ≡ (if flag then 1 else 0) }
{
    if flag { 1 } else { 0 }
}
