//! The header of a trimmed automaton, as a text writes it.

ghost use Rattle.std.specs.Prelude.{◌≡◌, ◌∷◌, ◌++◌, [], length, map, IfOk, IsOkUnless, OnOk};
ghost use Rattle.omega_hoa_acceptance.specs.Writing.{acc_written};
ghost use Rattle.omega_hoa_syntax.specs.declared.raw_item.RawItem.TheVariants as item;
ghost use Rattle.omega_lang_trim.specs.Trimmed.{starts_kept, trimmed};
ghost use Rattle.omega_lang_trim.specs.Written.{acc_name_items, header, name_items, start_item};
ghost use Rattle.omega_lang_trim.specs.private.Placed.{IsFew};

use crate::names::copied_acc_name;
use crate::numbers::{all_stay, new_numbers_of};
use indexmap::IndexSet;
use omega_hoa_acceptance::RawAcc;
use omega_hoa_automaton::{Automaton, Refusal};
use omega_hoa_syntax::RawItem;
use omega_text::{ByteString, Seq, copy_of_strings};
use std::alloc::Global;

/// Returns the header, whose acceptance is `formula`.
pub(crate) fn header(
    alloc: Global,
    automaton: &Automaton,
    kept: &IndexSet<u32>,
    formula: RawAcc,
) -> Result<Vec<RawItem>, Refusal>
    requires few { IsFew kept.now.keys }
    requires formula { formula ≡ acc_written automaton.now.acceptance }
    ensures items { IfOk result (λ items. items.items ≡ header (trimmed kept.now.keys automaton.now)) }
    ensures memory { IsOkUnless result Refusal.Memory }
{
    let mut items = Vec::new(alloc);
    match push_items(alloc, &mut items, automaton, kept, formula) {
        Ok(()) => Ok(items),
        Err(refusal) => Err(refusal),
    }
}

/// Appends the items of the header, whose acceptance is `formula`.
fn push_items(
    alloc: Global,
    items: &mut Vec<RawItem>,
    automaton: &Automaton,
    kept: &IndexSet<u32>,
    formula: RawAcc,
) -> Result<(), Refusal>
    requires few { IsFew kept.now.keys }
    requires formula { formula ≡ acc_written automaton.now.acceptance }
    ensures items { OnOk result
        (items.new.items ≡ items.old.items ++ header (trimmed kept.now.keys automaton.now)) }
    ensures memory { IsOkUnless result Refusal.Memory }
{
    match push_counts(alloc, items, automaton, kept) {
        Ok(()) => push_others(alloc, items, automaton, kept, formula),
        Err(refusal) => Err(refusal),
    }
}

/// Appends the number of states that stay, and the propositions.
fn push_counts(
    alloc: Global,
    items: &mut Vec<RawItem>,
    automaton: &Automaton,
    kept: &IndexSet<u32>,
) -> Result<(), Refusal>
    requires { IsFew kept.now.keys }
    ensures items { OnOk result
        (items.new.items ≡ items.old.items ++ item.States (length kept.now.keys)
        ∷ item.Propositions (length automaton.now.propositions) automaton.now.propositions ∷ []) }
    ensures memory { IsOkUnless result Refusal.Memory }
{
    items.push(RawItem::States(kept.len() as u32))?;
    items.push(propositions(alloc, automaton)?)?;
    Ok(())
}

/// Appends the acceptance `formula`, both names, and the starts that stay.
fn push_others(
    alloc: Global,
    items: &mut Vec<RawItem>,
    automaton: &Automaton,
    kept: &IndexSet<u32>,
    formula: RawAcc,
) -> Result<(), Refusal>
    requires { IsFew kept.now.keys }
    ensures items { OnOk result
        (items.new.items ≡ items.old.items ++ item.Acceptance automaton.now.sets formula
        ∷ (name_items automaton.now.name ++ (acc_name_items automaton.now.acc_name
        ++ map start_item (starts_kept kept.now.keys automaton.now.starts)))) }
    ensures memory { IsOkUnless result Refusal.Memory }
{
    items.push(RawItem::Acceptance {
        count: automaton.set_count(),
        formula,
    })?;
    push_name(alloc, items, automaton)?;
    push_acc_name(alloc, items, automaton)?;
    push_starts(alloc, items, automaton, kept)
}

/// Appends the name of `automaton`, if it has one.
fn push_name(alloc: Global, items: &mut Vec<RawItem>, automaton: &Automaton) -> Result<(), Refusal>
    ensures items { OnOk result (items.new.items ≡ items.old.items ++ name_items automaton.now.name) }
    ensures memory { IsOkUnless result Refusal.Memory }
{
    if let Some(name) = automaton.name() {
        items.push(RawItem::Name(ByteString::from_slice(alloc, name)?))?;
    }
    Ok(())
}

/// Appends the starts that stay.
fn push_starts(
    alloc: Global,
    items: &mut Vec<RawItem>,
    automaton: &Automaton,
    kept: &IndexSet<u32>,
) -> Result<(), Refusal>
    requires { IsFew kept.now.keys }
    ensures items { OnOk result (items.new.items
        ≡ items.old.items ++ map start_item (starts_kept kept.now.keys automaton.now.starts)) }
    ensures memory { IsOkUnless result Refusal.Memory }
{
    for start in automaton.starts() {
        if all_stay(kept, start.as_slice()) {
            items.push(RawItem::Start(new_numbers_of(alloc, kept, start.as_slice())?))?;
        }
    }
    Ok(())
}

/// Returns the header item of the propositions.
fn propositions(alloc: Global, automaton: &Automaton) -> Result<RawItem, Refusal>
    ensures item { IfOk result (λ made.
        made ≡ item.Propositions (length automaton.now.propositions) automaton.now.propositions) }
    ensures memory { IsOkUnless result Refusal.Memory }
{
    automaton.keeps_limits();
    let names = automaton.propositions();
    let count = names.len() as u32;
    Ok(RawItem::Propositions {
        count,
        names: Seq::from_vec(copy_of_strings(alloc, names)?),
    })
}

/// Appends the name of the acceptance of `automaton`, if it has one.
fn push_acc_name(
    alloc: Global,
    items: &mut Vec<RawItem>,
    automaton: &Automaton,
) -> Result<(), Refusal>
    ensures items { OnOk result
        (items.new.items ≡ items.old.items ++ acc_name_items automaton.now.acc_name) }
    ensures memory { IsOkUnless result Refusal.Memory }
{
    if let Some(name) = automaton.acc_name() {
        items.push(RawItem::AccName(copied_acc_name(alloc, name)?))?;
    }
    Ok(())
}
