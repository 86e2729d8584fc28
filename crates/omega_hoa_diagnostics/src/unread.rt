//! Texts that are not those of one automaton: they have no line.

ghost use Rattle.std.specs.Prelude.{◌≡◌, [], IfOk, IsOkUnless};
ghost use Rattle.omega_text.specs.declared.refusal.Refusal.TheVariants.{Memory};

use omega_text::Refusal;
use std::alloc::Global;

/// Returns no line for a text that is refused. [Refusal::Memory] says nothing of the text and is handed on.
pub(crate) fn line_of_unread(alloc: Global, refusal: Refusal) -> Result<Vec<u8>, Refusal>
    ensures none { IfOk result (λ line. (line.items ≡ []) × (refusal ≡ Memory → ⊥)) }
    ensures memory { IsOkUnless result Refusal.Memory }
{
    match refusal {
        Refusal::Memory => Err(Refusal::Memory),
        _ => Ok(Vec::new(alloc)),
    }
}
