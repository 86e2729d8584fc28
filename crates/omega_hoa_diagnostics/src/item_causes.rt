//! The line that says that an automaton lacks the header item `controllable-AP:`.

ghost use Rattle.std.specs.Prelude.{◌≡◌, IfOk, IsOkUnless};
ghost use Rattle.omega_hoa_diagnostics.specs.ItemCauses.{IsItemCause, item_line};

use crate::unread::line_of_unread;
use omega_hoa::{automata_are_one, automata_are_unrefused, read_one};
use omega_hoa_automaton::Automaton;
use omega_synth_controllers::has_controllable_item;
use omega_text::Refusal;
use std::alloc::Global;

/// Returns the line that says that the automaton of a text lacks the header item `controllable-AP:`, with its line
/// feed. Refused with [Refusal::Memory].
///
/// There is no line and the result is empty if `text` is not that of one automaton, or if its automaton has the item.
/// Linear in the text.
pub fn item_cause(alloc: Global, text: &[u8]) -> Result<Vec<u8>, Refusal>
    ensures cause { IfOk result (λ line. IsItemCause text.now line.items) }
    ensures memory { IsOkUnless result Refusal.Memory }
{
    automata_are_one();
    automata_are_unrefused();
    match read_one(alloc, text) {
        Ok(automaton) => line_of_item(alloc, &automaton),
        Err(refusal) => line_of_unread(alloc, refusal),
    }
}

/// Returns the line for an automaton.
fn line_of_item(alloc: Global, automaton: &Automaton) -> Result<Vec<u8>, Refusal>
    ensures line { IfOk result (λ line. line.items ≡ item_line automaton.now) }
    ensures memory { IsOkUnless result Refusal.Memory }
{
    let mut line = Vec::new(alloc);
    if !has_controllable_item(automaton) {
        line.extend_from_slice(b"omega: the header has no controllable-AP:\n")?;
    }
    Ok(line)
}
