//! The header of the automaton of a formula, as a text writes it.

ghost use Rattle.std.specs.Prelude.{◌≡◌, ◌++◌, ◌≤◌, length, IfOk, IsOkUnless, OnOk};
ghost use Rattle.omega_hoa_acceptance.specs.Kind.{buchi_formula};
ghost use Rattle.omega_hoa_acceptance.specs.Writing.{acc_written};
ghost use Rattle.omega_hoa_syntax.specs.declared.raw_item.RawItem.TheVariants as item;
ghost use Rattle.omega_ltl_translation.specs.Translation.{given_name};
ghost use Rattle.omega_ltl_translation.specs.private.Written.{header as header_of, name_items};

use omega_hoa_syntax::RawItem;
use omega_lang_product::{buchi_formula, buchi_name};
use omega_text::{ByteString, Numbers, Refusal, Seq, copy_of_strings};
use std::alloc::Global;

/// Returns the header: the name, if it is not empty, the propositions, and how many states and sets there are. State 0
/// is the start, and each set has to recur.
pub(crate) fn header(
    alloc: Global,
    name: &[u8],
    propositions: &[ByteString],
    states: u32,
    sets: u32,
) -> Result<Vec<RawItem>, Refusal>
    requires propositions { length propositions.now ≤ 64 }
    requires sets { sets ≤ 64 }
    ensures items { IfOk result
        (λ items. items.items ≡ header_of (given_name name.now) propositions.now states sets) }
    ensures memory { IsOkUnless result Refusal.Memory }
{
    let mut items = Vec::new(alloc);
    items.push(RawItem::States(states))?;
    items.push(RawItem::Start(Numbers::one(0)))?;
    items.push(propositions_item(alloc, propositions)?)?;
    items.push(RawItem::AccName(buchi_name(alloc, sets)?))?;
    items.push(acceptance_item(alloc, sets)?)?;
    push_name(alloc, name, &mut items)?;
    Ok(items)
}

/// Returns the item of the propositions.
fn propositions_item(alloc: Global, propositions: &[ByteString]) -> Result<RawItem, Refusal>
    requires { length propositions.now ≤ 64 }
    ensures item { IfOk result
        (λ made. made ≡ item.Propositions (length propositions.now) propositions.now) }
    ensures memory { IsOkUnless result Refusal.Memory }
{
    let count = propositions.len() as u32;
    Ok(RawItem::Propositions {
        count,
        names: Seq::from_vec(copy_of_strings(alloc, propositions)?),
    })
}

/// Returns the item of the acceptance in which each of `sets` sets has to recur.
fn acceptance_item(alloc: Global, sets: u32) -> Result<RawItem, Refusal>
    requires { sets ≤ 64 }
    ensures item { IfOk result (λ made. made ≡ item.Acceptance sets (acc_written (buchi_formula sets))) }
    ensures memory { IsOkUnless result Refusal.Memory }
{
    Ok(RawItem::Acceptance {
        count: sets,
        formula: buchi_formula(alloc, sets)?,
    })
}

/// Appends the item of the name, if it is not empty.
fn push_name(alloc: Global, name: &[u8], items: &mut Vec<RawItem>) -> Result<(), Refusal>
    ensures ok { OnOk result (items.new.items ≡ items.old.items ++ name_items (given_name name.now)) }
    ensures memory { IsOkUnless result Refusal.Memory }
{
    if !name.is_empty() {
        items.push(RawItem::Name(ByteString::from_slice(alloc, name)?))?;
    }
    Ok(())
}
