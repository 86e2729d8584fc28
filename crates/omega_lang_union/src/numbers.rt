//! Numbers that come after others.

ghost use Rattle.std.specs.Prelude.{◌≡◌, ◌+◌, ◌++◌, IfOk, IsOkUnless, OnOk};
ghost use Rattle.omega_lang_union.specs.Parts.{moved as moved_after};
ghost use Rattle.omega_lang_union.specs.Sharing.{guard_sets};

use omega_text::{Numbers, Refusal};
use std::alloc::Global;

/// Returns `number` after `before` others. Also fails with [Refusal::Memory] if it does not fit, which can't happen for
/// a union within the limits.
pub(crate) fn number_after(before: u32, number: u32) -> Result<u32, Refusal>
    ensures ok { IfOk result (λ following. following ≡ before + number) }
    ensures memory { IsOkUnless result Refusal.Memory }
{
    match before.checked_add(number) {
        Some(following) => Ok(following),
        None => Err(Refusal::Memory),
    }
}

/// Returns `numbers`, each after `before` others. Also fails with [Refusal::Memory] if one does not fit, which can't
/// happen for a union within the limits.
pub(crate) fn numbers_after(alloc: Global, before: u32, numbers: &[u32]) -> Result<Numbers, Refusal>
    ensures moved { IfOk result (λ list. list ≡ moved_after before numbers.now) }
    ensures memory { IsOkUnless result Refusal.Memory }
{
    let mut list = Numbers::new();
    for number in numbers {
        let next = number_after(before, *number)?;
        list.push(alloc, next)?;
    }
    Ok(list)
}

/// Returns the marks of an edge: its own after `before` other sets, and its guard, if there is one. Also fails with
/// [Refusal::Memory] if one does not fit, which can't happen for a union within the limits.
pub(crate) fn guarded_marks(
    alloc: Global,
    before: u32,
    marks: &[u32],
    guard: Option<u32>,
) -> Result<Numbers, Refusal>
    ensures marks { IfOk result (λ list. list ≡ moved_after before marks.now ++ guard_sets guard) }
    ensures memory { IsOkUnless result Refusal.Memory }
{
    let mut list = numbers_after(alloc, before, marks)?;
    push_guard(alloc, &mut list, guard)?;
    Ok(list)
}

/// Appends the set of `guard`, if there is one.
fn push_guard(alloc: Global, marks: &mut Numbers, guard: Option<u32>) -> Result<(), Refusal>
    ensures marks { OnOk result (marks.new ≡ marks.old ++ guard_sets guard) }
    ensures memory { IsOkUnless result Refusal.Memory }
{
    if let Some(set) = guard {
        marks.push(alloc, set)?;
    }
    Ok(())
}
