//! The header of a union, as a text writes it.

ghost use Rattle.std.specs.Prelude.{◌≡◌, [], ◌∷◌, ◌++◌, ◌+◌, ◌≤◌, length, map, IfErr, IfOk, IsOkUnless, OnOk};
ghost use Rattle.std.specs.Option.{option_copied, option_or};
ghost use Rattle.omega_hoa_automaton.specs.Limits.{most_propositions};
ghost use Rattle.omega_hoa_edges.specs.Fitting.{IsLarge};
ghost use Rattle.omega_hoa_edges.specs.Limits.{most_states};
ghost use Rattle.omega_hoa_acceptance.specs.Writing.{acc_written};
ghost use Rattle.omega_lang_product.specs.Joining.{joined_names};
ghost use Rattle.omega_hoa_syntax.specs.declared.raw_item.RawItem.TheVariants as item;
ghost use Rattle.omega_lang_trim.specs.Written.{acc_name_items, header as header_of, start_item};
ghost use Rattle.omega_lang_union.specs.Parts.{moved as moved_after};
ghost use Rattle.omega_lang_union.specs.Sharing.{union_acceptance, union_name};
ghost use Rattle.omega_lang_union.specs.Union.{united};
ghost use Rattle.omega_lang_union.specs.private.Operands.{IsDeepFormula};

use crate::acceptance::written_acceptance;
use crate::numbers::numbers_after;
use crate::sharing::Sharing;
use omega_hoa_acceptance::{AccName, RawAcc};
use omega_hoa_automaton::Automaton;
use omega_hoa_syntax::RawItem;
use omega_lang_trim::copied_acc_name;
use omega_text::{ByteString, Numbers, Refusal, Seq};
use std::alloc::Global;

/// Returns the header: the joined `names`, the acceptance, and the starts of both. Fails with [TaskFault::TooLarge] if
/// the acceptance is deeper than `MOST_DEPTH` as it is written.
pub(crate) fn header(
    alloc: Global,
    sharing: &Sharing,
    one: &Automaton,
    other: &Automaton,
    names: Vec<ByteString>,
) -> Result<Vec<RawItem>, Refusal>
    requires names { names.items ≡ joined_names one.now.propositions other.now.propositions }
    requires few { length names.items ≤ most_propositions }
    requires states { one.now.states + other.now.states ≤ most_states }
    ensures items { IfOk result
        (λ items. items.items ≡ header_of (united sharing.now one.now other.now)) }
    ensures err { IfErr result
        (IsLarge (IsDeepFormula (union_acceptance sharing.now one.now other.now))) }
{
    match written_acceptance(alloc, sharing, one, other) {
        Ok(formula) => items_of(alloc, sharing, one, other, names, formula),
        Err(refusal) => Err(refusal),
    }
}

/// Returns the header: the joined `names`, the acceptance `formula`, and the starts of both.
fn items_of(
    alloc: Global,
    sharing: &Sharing,
    one: &Automaton,
    other: &Automaton,
    names: Vec<ByteString>,
    formula: RawAcc,
) -> Result<Vec<RawItem>, Refusal>
    requires names { names.items ≡ joined_names one.now.propositions other.now.propositions }
    requires few { length names.items ≤ most_propositions }
    requires states { one.now.states + other.now.states ≤ most_states }
    requires formula { formula ≡ acc_written (union_acceptance sharing.now one.now other.now) }
    ensures items { IfOk result
        (λ items. items.items ≡ header_of (united sharing.now one.now other.now)) }
    ensures memory { IsOkUnless result Refusal.Memory }
{
    let mut items = Vec::new(alloc);
    match push_items(alloc, &mut items, sharing, one, other, names, formula) {
        Ok(()) => Ok(items),
        Err(refusal) => Err(refusal),
    }
}

/// Appends the items of the header: the joined `names`, the acceptance `formula`, and the starts of both.
fn push_items(
    alloc: Global,
    items: &mut Vec<RawItem>,
    sharing: &Sharing,
    one: &Automaton,
    other: &Automaton,
    names: Vec<ByteString>,
    formula: RawAcc,
) -> Result<(), Refusal>
    requires names { names.items ≡ joined_names one.now.propositions other.now.propositions }
    requires few { length names.items ≤ most_propositions }
    requires states { one.now.states + other.now.states ≤ most_states }
    requires formula { formula ≡ acc_written (union_acceptance sharing.now one.now other.now) }
    ensures items { OnOk result
        (items.new.items ≡ items.old.items ++ header_of (united sharing.now one.now other.now)) }
    ensures memory { IsOkUnless result Refusal.Memory }
{
    match push_counts(items, one, other, names) {
        Ok(()) => push_others(alloc, items, sharing, one, other, formula),
        Err(refusal) => Err(refusal),
    }
}

/// Appends the number of the states of both, and the joined `names`.
fn push_counts(
    items: &mut Vec<RawItem>,
    one: &Automaton,
    other: &Automaton,
    names: Vec<ByteString>,
) -> Result<(), Refusal>
    requires few { length names.items ≤ most_propositions }
    requires states { one.now.states + other.now.states ≤ most_states }
    ensures items { OnOk result
        (items.new.items ≡ items.old.items ++ item.States (one.now.states + other.now.states)
        ∷ item.Propositions (length names.items) names.items ∷ []) }
    ensures memory { IsOkUnless result Refusal.Memory }
{
    items.push(RawItem::States(one.state_count() + other.state_count()))?;
    items.push(RawItem::Propositions {
        count: names.len() as u32,
        names: Seq::from_vec(names),
    })?;
    Ok(())
}

/// Appends the acceptance `formula`, its name, and the starts of both.
fn push_others(
    alloc: Global,
    items: &mut Vec<RawItem>,
    sharing: &Sharing,
    one: &Automaton,
    other: &Automaton,
    formula: RawAcc,
) -> Result<(), Refusal>
    ensures items { OnOk result
        (items.new.items ≡ items.old.items ++ item.Acceptance sharing.now.sets formula
        ∷ (acc_name_items (union_name sharing.now one.now other.now) ++ map start_item
        (map (moved_after 0) one.now.starts ++ map (moved_after one.now.states) other.now.starts))) }
    ensures memory { IsOkUnless result Refusal.Memory }
{
    items.push(RawItem::Acceptance {
        count: sharing.sets,
        formula,
    })?;
    push_name(alloc, items, sharing, one, other)?;
    push_starts(alloc, items, 0, one.starts())?;
    push_starts(alloc, items, one.state_count(), other.starts())?;
    Ok(())
}

/// Appends the name of the acceptance, if it has one.
fn push_name(
    alloc: Global,
    items: &mut Vec<RawItem>,
    sharing: &Sharing,
    one: &Automaton,
    other: &Automaton,
) -> Result<(), Refusal>
    ensures items { OnOk result (items.new.items
        ≡ items.old.items ++ acc_name_items (union_name sharing.now one.now other.now)) }
    ensures memory { IsOkUnless result Refusal.Memory }
{
    if !sharing.shared {
        return Ok(());
    }
    if let Some(name) = either_name(one, other) {
        items.push(RawItem::AccName(copied_acc_name(alloc, name)?))?;
    }
    Ok(())
}

/// Returns the name of the acceptance of `one`, or else that of `other`.
fn either_name<'a>(one: &'a Automaton, other: &'a Automaton) -> Option<&'a AccName>
    ensures { option_copied result ≡ option_or one.now.acc_name other.now.acc_name }
{
    match one.acc_name() {
        Some(name) => Some(name),
        None => other.acc_name(),
    }
}

/// Appends `starts`, whose states are numbered after `before` others.
fn push_starts(
    alloc: Global,
    items: &mut Vec<RawItem>,
    before: u32,
    starts: &[Numbers],
) -> Result<(), Refusal>
    ensures items { OnOk result
        (items.new.items ≡ items.old.items ++ map start_item (map (moved_after before) starts.now)) }
    ensures memory { IsOkUnless result Refusal.Memory }
{
    for start in starts {
        items.push(RawItem::Start(numbers_after(alloc, before, start.as_slice())?))?;
    }
    Ok(())
}
