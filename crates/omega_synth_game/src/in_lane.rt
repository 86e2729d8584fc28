//! The edges of which a lane is set.

ghost use Rattle.std.specs.Prelude.{◌≡◌, ◌<◌, length, IfOk, IsOkUnless};
ghost use Rattle.omega_synth_game.specs.private.EdgeWords.{set_in_lane};
ghost use Rattle.omega_synth_game.specs.private.Lanes.{is_set};

use omega_text::{Numbers, Refusal};
use std::alloc::Global;

/// Returns those of `numbers` whose word of `words`, at the same index, has the lane `lane` set.
pub(crate) fn set_in_lane(
    alloc: Global,
    numbers: &[u32],
    words: &[u64],
    lane: u32,
) -> Result<Numbers, Refusal>
    requires lane { lane < 64 }
    requires words { length words.now ≡ length numbers.now }
    ensures set { IfOk result (λ set. set ≡ set_in_lane lane numbers.now words.now) }
    ensures memory { IsOkUnless result Refusal.Memory }
{
    let mut set = Numbers::new();
    for (index, word) in words.iter().enumerate() {
        if has_lane(*word, lane) {
            set.push(alloc, numbers[index])?;
        }
    }
    Ok(set)
}

/// Whether the lane `lane` of `word` is set.
fn has_lane(word: u64, lane: u32) -> bool
    requires { lane < 64 }
    ensures { result ≡ is_set word lane }
{
    (word >> lane) % 2 == 1
}
