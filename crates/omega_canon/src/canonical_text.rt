ghost use Rattle.std.specs.Prelude.{◌≡◌, ◌++◌, IfOk, IsOkUnless, OnErr, OnOk, Some, option_map};
ghost use Rattle.omega_canon.specs.Canonical.{canonical_automaton as text_of, titled};

use crate::body::write_body;
use crate::header::write_header;
use omega_hoa_automaton::Automaton;
use omega_text::Refusal;
use std::alloc::Global;

/// Returns the canonical text of `automaton`: the same text for equal automata (docs/formats.md, the canonical text of
/// an automaton).
///
/// Aliases have been replaced, parentheses are written only if an operator needs them, and marks are rising. The text
/// of an automaton that was read is read back to the same automaton, if it has at most `MOST_TEXT` bytes, by
/// `canonical_texts_are_read`. The cost is linear in the text.
pub fn canonical(alloc: Global, automaton: &Automaton) -> Result<Vec<u8>, Refusal>
    ensures text { IfOk result (λ text. text.items ≡ text_of automaton.now) }
    ensures memory { IsOkUnless result Refusal.Memory }
{
    canonical_titled(alloc, automaton, automaton.name())
}

/// Returns the canonical text of `automaton` with this name between its quotes, in place of that which it has.
pub fn canonical_named(
    alloc: Global,
    automaton: &Automaton,
    name: &[u8],
) -> Result<Vec<u8>, Refusal>
    ensures text { IfOk result (λ text. text.items ≡ text_of (titled (Some name.now) automaton.now)) }
    ensures memory { IsOkUnless result Refusal.Memory }
{
    canonical_titled(alloc, automaton, Some(name))
}

/// Returns the canonical text of `automaton` with this name, or without one.
fn canonical_titled(
    alloc: Global,
    automaton: &Automaton,
    name: Option<&[u8]>,
) -> Result<Vec<u8>, Refusal>
    ensures text { IfOk result (λ text.
        text.items ≡ text_of (titled (option_map (λ name. name.now) name.entry) automaton.now)) }
    ensures memory { IsOkUnless result Refusal.Memory }
{
    let mut text = Vec::with_capacity(alloc, 128)?;
    write_header(automaton, name, &mut text)?;
    write_body(automaton.defined(), &mut text)?;
    Ok(text)
}

/// Appends the canonical text of `automaton`, as `canonical` returns it. After [Refusal::Memory] the vector is as
/// before.
pub fn write_canonical(automaton: &Automaton, out: &mut Vec<u8>) -> Result<(), Refusal>
    ensures ok { OnOk result (out.new.items ≡ out.old.items ++ text_of automaton.now) }
    ensures kept { OnErr result (out.new.items ≡ out.old.items) }
    ensures memory { IsOkUnless result Refusal.Memory }
{
    let text = canonical(*out.allocator(), automaton)?;
    out.extend_from_slice(text.as_slice())?;
    Ok(())
}
