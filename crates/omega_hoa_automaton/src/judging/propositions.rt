ghost use Rattle.std.specs.Prelude.{◌≡◌, option_map, unwrap_or, IfErr, IfOk};
ghost use Rattle.std.specs.List.{list_any};
ghost use Rattle.std.specs.Option.{option_copied};
ghost use Rattle.omega_text.specs.Cases.{IsMemory};
ghost use Rattle.omega_hoa_automaton.specs.Faults.{has_wrong_proposition as wrong_proposition};
ghost use Rattle.omega_hoa_automaton.specs.Faults.{is_beyond as beyond, is_misnamed as misnamed, passes};
ghost use Rattle.omega_hoa_automaton.specs.Faults.{proposition_count as count_of_propositions};
ghost use Rattle.omega_hoa_automaton.specs.Items.{alias_in, first_said, propositions_in};
ghost use Rattle.omega_hoa_automaton.specs.private.layout.Body.{AreCountsOf, IsFoundOfStates};

use crate::judging::body::BodyFound;
use crate::judging::counts::Counts;
use crate::judging::repeats::has_name_twice;
use crate::limits::MOST_PROPOSITIONS;
use omega_hoa_label::RawLabel;
use omega_hoa_syntax::{RawAutomaton, RawItem};
use omega_text::{ByteString, Refusal, Seq};
use std::alloc::Global;

/// Whether propositions are miscounted, alike or too many, or a label or an alias mentions one out of range
/// ([AutomatonFault::Proposition]).
#[tactic(auto, unfolding(crate::specs::Faults::has_wrong_proposition))]
pub(crate) fn has_wrong_proposition(
    alloc: Global,
    raw: &RawAutomaton,
    counts: Counts,
    found: BodyFound,
) -> Result<bool, Refusal>
    requires counts { AreCountsOf raw.now counts }
    requires found { IsFoundOfStates counts raw.now.states found }
    ensures ok { IfOk result (λ wrong. wrong ≡ wrong_proposition raw.now) }
    ensures err { IfErr result IsMemory }
{
    if any_misnamed(alloc, raw.items.as_slice())? {
        return Ok(true);
    }
    Ok(any_alias_beyond(raw.items.as_slice(), counts.propositions) || found.proposition)
}

/// Returns the count of propositions, or 0 without `AP:`.
pub(crate) fn proposition_count(raw: &RawAutomaton) -> u32
    ensures { result ≡ count_of_propositions raw.now }
{
    stated_count(raw.items.as_slice())
}

/// Returns the count in the first `AP:`, or 0 without one.
fn stated_count(items: &[RawItem]) -> u32
    ensures { result
        ≡ unwrap_or (option_map (λ named. named.count) (first_said propositions_in items.now)) 0 }
{
    for item in items {
        if let RawItem::Propositions { count, .. } = item {
            return *count;
        }
    }
    0
}

/// Whether an item names propositions and not as many as stated, or too many, or alike.
fn any_misnamed(alloc: Global, items: &[RawItem]) -> Result<bool, Refusal>
    ensures ok { IfOk result
        (λ wrong. wrong ≡ list_any (λ item. passes misnamed (propositions_in item)) items.now) }
    ensures err { IfErr result IsMemory }
{
    for item in items {
        if misnames(alloc, item)? {
            return Ok(true);
        }
    }
    Ok(false)
}

/// Whether `item` names propositions and not as many as stated, or too many, or alike.
fn misnames(alloc: Global, item: &RawItem) -> Result<bool, Refusal>
    ensures ok { IfOk result (λ wrong. wrong ≡ passes misnamed (propositions_in item.now)) }
    ensures err { IfErr result IsMemory }
{
    match item {
        RawItem::Propositions { count, names } => is_misnamed(alloc, *count, names),
        _ => Ok(false),
    }
}

/// Whether `names` are not as many as stated, or too many, or alike.
fn is_misnamed(alloc: Global, count: u32, names: &Seq<ByteString>) -> Result<bool, Refusal>
    ensures ok { IfOk result
        (λ wrong. wrong ≡ misnamed (record { count = count; names = names.now })) }
    ensures err { IfErr result IsMemory }
{
    if !(count as usize == names.len()) || MOST_PROPOSITIONS < names.len() {
        return Ok(true);
    }
    has_name_twice(alloc, names.as_slice())
}

/// Whether the definition of an alias mentions a proposition that is not below `count`.
fn any_alias_beyond(items: &[RawItem], count: u32) -> bool
    ensures { result ≡ list_any
        (λ item. passes (λ defined. beyond count defined.body) (alias_in item)) items.now }
{
    for item in items {
        if alias_beyond(item, count) {
            return true;
        }
    }
    false
}

/// Whether `item` is an alias whose definition mentions a proposition that is not below `count`.
fn alias_beyond(item: &RawItem, count: u32) -> bool
    ensures { result ≡ passes (λ defined. beyond count defined.body) (alias_in item.now) }
{
    match item {
        RawItem::Alias { definition, .. } => is_beyond(definition, count),
        _ => false,
    }
}

/// Whether there is a label that mentions a proposition that is not below `count`.
pub(crate) fn label_beyond(label: Option<&RawLabel>, count: u32) -> bool
    ensures { result ≡ passes (beyond count) (option_copied label.entry) }
{
    match label {
        Some(label) => is_beyond(label, count),
        None => false,
    }
}

/// Whether `label` mentions a proposition that is not below `count`.
fn is_beyond(label: &RawLabel, count: u32) -> bool
    ensures { result ≡ beyond count label.now }
{
    !label.propositions_below(count)
}
