//! The header of a product, as a text writes it.

ghost use Rattle.std.specs.Prelude.{◌≡◌, ◌++◌, ◌<◌, ◌≤◌, ◌^◌, length, IfOk, IsOkUnless, OnOk};
ghost use Rattle.omega_hoa_edges.specs.Limits.{most_states};
ghost use Rattle.omega_lang_product.specs.private.Starts.{pairs_of, raw_starts, raw_starts_with};
ghost use Rattle.omega_lang_product.specs.Written.{name_items, raw_items};

use crate::acceptance::WrittenAcceptance;
use crate::exploring::start_state;
use crate::pairs::number_of;
use crate::starts::Starts;
use omega_hoa_acceptance::AccName;
use omega_hoa_syntax::RawItem;
use omega_text::{ByteString, Numbers, Refusal, Seq};
use std::alloc::Global;

/// Returns the header: the joined `names`, the `acceptance` of `sets` sets, and the pairs of `starts`.
pub(crate) fn items_of(
    alloc: Global,
    names: Vec<ByteString>,
    sets: u32,
    acceptance: WrittenAcceptance,
    starts: &Starts<'_>,
) -> Result<Vec<RawItem>, Refusal>
    requires names { length names.items < 2 ^ 32 }
    requires few { length starts.now.found.now.keys ≤ most_states }
    ensures ok { IfOk result (λ items. items.items ≡ raw_items names.items sets acceptance.name
        acceptance.formula (pairs_of starts.now) starts.now.found.now.keys) }
    ensures memory { IsOkUnless result Refusal.Memory }
{
    let WrittenAcceptance { name, formula } = acceptance;
    let mut items = Vec::new(alloc);
    items.push(RawItem::States(starts.found.len() as u32))?;
    items.push(RawItem::Propositions {
        count: names.len() as u32,
        names: Seq::from_vec(names),
    })?;
    items.push(RawItem::Acceptance {
        count: sets,
        formula,
    })?;
    push_name(&mut items, name)?;
    push_starts(&mut items, starts)?;
    Ok(items)
}

/// Appends the name of an acceptance, if it has one.
fn push_name(items: &mut Vec<RawItem>, name: Option<AccName>) -> Result<(), Refusal>
    ensures ok { OnOk result (items.new.items ≡ items.old.items ++ name_items name) }
    ensures memory { IsOkUnless result Refusal.Memory }
{
    if let Some(name) = name {
        items.push(RawItem::AccName(name))?;
    }
    Ok(())
}

/// Appends the pairs of a first and a second start.
fn push_starts(items: &mut Vec<RawItem>, starts: &Starts<'_>) -> Result<(), Refusal>
    requires { length starts.now.found.now.keys ≤ most_states }
    ensures ok { OnOk result (items.new.items ≡ items.old.items ++ raw_starts starts.now) }
    ensures memory { IsOkUnless result Refusal.Memory }
{
    for first in starts.firsts {
        push_starts_with(items, start_state(first), starts)?;
    }
    Ok(())
}

/// Appends the pairs of the state `first` and a second start.
fn push_starts_with(
    items: &mut Vec<RawItem>,
    first: u32,
    starts: &Starts<'_>,
) -> Result<(), Refusal>
    requires { length starts.now.found.now.keys ≤ most_states }
    ensures ok { OnOk result (items.new.items ≡ items.old.items ++ raw_starts_with starts.now first) }
    ensures memory { IsOkUnless result Refusal.Memory }
{
    for second in starts.seconds {
        let number = number_of(starts.found, (first, start_state(second)));
        items.push(RawItem::Start(Numbers::one(number)))?;
    }
    Ok(())
}
