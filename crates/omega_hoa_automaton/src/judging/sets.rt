ghost use Rattle.std.specs.Prelude.{◌≡◌, nat_le, option_map, unwrap_or};
ghost use Rattle.std.specs.List.{list_any};
ghost use Rattle.omega_hoa_automaton.specs.Faults.{has_set_beyond as set_beyond};
ghost use Rattle.omega_hoa_automaton.specs.Faults.{has_set_out_of_range as set_out_of_range};
ghost use Rattle.omega_hoa_automaton.specs.Faults.{passes, set_count as count_of_sets};
ghost use Rattle.omega_hoa_automaton.specs.Items.{acceptance_in, first_said};
ghost use Rattle.omega_hoa_automaton.specs.private.layout.Body.{AreCountsOf, IsFoundOfStates};

use crate::judging::body::BodyFound;
use crate::judging::counts::Counts;
use crate::judging::states::any_beyond;
use omega_hoa_syntax::{RawAutomaton, RawItem};

/// Whether a mark of a state or an edge, or a set of an acceptance, is not below the count of sets
/// ([AutomatonFault::SetRange]).
#[tactic(auto, unfolding(crate::specs::Faults::has_set_out_of_range))]
pub(crate) fn has_set_out_of_range(raw: &RawAutomaton, counts: Counts, found: BodyFound) -> bool
    requires counts { AreCountsOf raw.now counts }
    requires found { IsFoundOfStates counts raw.now.states found }
    ensures { result ≡ set_out_of_range raw.now }
{
    any_accepted_beyond(raw.items.as_slice(), counts.sets) || found.mark
}

/// Returns the count of sets, or 0 without acceptance.
pub(crate) fn set_count(raw: &RawAutomaton) -> u32
    ensures { result ≡ count_of_sets raw.now }
{
    stated_count(raw.items.as_slice())
}

/// Returns the count in the first acceptance, or 0 without one.
fn stated_count(items: &[RawItem]) -> u32
    ensures { result ≡ unwrap_or
        (option_map (λ accepted. accepted.count) (first_said acceptance_in items.now)) 0 }
{
    for item in items {
        if let RawItem::Acceptance { count, .. } = item {
            return *count;
        }
    }
    0
}

/// Whether an acceptance has a set that is not below `count`.
fn any_accepted_beyond(items: &[RawItem], count: u32) -> bool
    ensures { result ≡ list_any (λ item. passes (set_beyond count) (acceptance_in item)) items.now }
{
    for item in items {
        if accepted_beyond(item, count) {
            return true;
        }
    }
    false
}

/// Whether `item` is an acceptance with a set that is not below `count`.
fn accepted_beyond(item: &RawItem, count: u32) -> bool
    ensures { result ≡ passes (set_beyond count) (acceptance_in item.now) }
{
    match item {
        RawItem::Acceptance { formula, .. } => !formula.sets_below(count),
        _ => false,
    }
}

/// Whether there are marks and one of them is not below `count`.
pub(crate) fn marks_beyond(marks: Option<&[u32]>, count: u32) -> bool
    ensures { result ≡ passes (list_any (nat_le count)) (option_map (λ sets. sets.now) marks.entry) }
{
    match marks {
        Some(sets) => any_beyond(sets, count),
        None => false,
    }
}
