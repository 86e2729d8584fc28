ghost use Rattle.std.specs.Prelude.{◌≡◌, false, true, IfOk, IsOkUnless};
ghost use Rattle.omega_answers_stream.specs.Several.{IsSeveral};

use omega_hoa::{read_stream, streams_are_one, streams_are_unrefused};
use omega_text::Refusal;
use std::alloc::Global;

/// Whether `text` is that of a stream of two or more automata, of which some may be aborted. Fails with
/// [Refusal::Memory] alone. Linear in the text.
pub fn is_several(alloc: Global, text: &[u8]) -> Result<bool, Refusal>
    ensures several { IfOk result (λ several. several ≡ true → IsSeveral text.now) }
    ensures few { IfOk result (λ several. several ≡ false → IsSeveral text.now → ⊥) }
    ensures memory { IsOkUnless result Refusal.Memory }
{
    streams_are_one();
    streams_are_unrefused();
    match read_stream(alloc, text) {
        Ok(items) => Ok(items.len() >= 2),
        Err(refusal) => match refusal {
            Refusal::Memory => Err(Refusal::Memory),
            _ => Ok(false),
        },
    }
}
