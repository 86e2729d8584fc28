ghost use Rattle.std.specs.Prelude.{[], IfErr, OnOk};
ghost use Rattle.std.specs.List.{filter_map};
ghost use Rattle.omega_hoa_automaton.specs.Items.{alias_in};
ghost use Rattle.omega_hoa_automaton.specs.private.layout.Definitions.{AreNoted, HasMet, IsUnmet, IsUnnoted};
ghost use Rattle.omega_hoa_automaton.specs.private.layout.Gathered.{HasGathered, HasTaken};

use crate::making::definitions::{Definitions, define};
use crate::making::gathered::Gathered;
use omega_hoa_syntax::RawItem;
use omega_text::{Refusal, Seq};
use std::alloc::Global;

/// Takes the items of a header. Nothing was taken before. Refused with [AutomatonFault::Alias] if two aliases have the
/// same name, or one reaches an alias that has no item before it.
pub(crate) fn gather(
    alloc: Global,
    gathered: &mut Gathered,
    definitions: &mut Definitions,
    items: Seq<RawItem>,
) -> Result<(), Refusal>
    requires gathered { HasGathered [] gathered.old }
    requires noted { AreNoted [] definitions.old }
    ensures gathered { OnOk result (HasGathered items gathered.new) }
    ensures noted { OnOk result (AreNoted (filter_map alias_in items) definitions.new) }
    ensures err { IfErr result (IsUnnoted (filter_map alias_in items)) }
{
    for item in items.into_vec() {
        gather_one(alloc, gathered, definitions, item)?;
    }
    Ok(())
}

/// Takes one more item. Refused with [AutomatonFault::Alias] if it is an alias whose name is there already or that
/// reaches an undefined one.
fn gather_one(
    alloc: Global,
    gathered: &mut Gathered,
    definitions: &mut Definitions,
    item: RawItem,
) -> Result<(), Refusal>
    ensures gathered { OnOk result (HasTaken gathered.old item gathered.new) }
    ensures met { OnOk result (HasMet definitions.old item definitions.new) }
    ensures err { IfErr result (IsUnmet definitions.old item) }
{
    match item {
        RawItem::Alias { name, definition } => {
            define(alloc, definitions, name.as_slice(), definition)
        }
        other => gathered.take(other),
    }
}
