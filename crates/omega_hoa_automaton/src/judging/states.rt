ghost use Rattle.std.specs.Prelude.{◌≡◌, ◌+◌, ◌≤◌, ◌^◌, max, min, unwrap_or, [], nat_le};
ghost use Rattle.std.specs.List.{list_any};
ghost use Rattle.omega_hoa_automaton.specs.Faults.{count_above as bound_in, greatest_of};
ghost use Rattle.omega_hoa_automaton.specs.Faults.{has_state_out_of_range as state_out_of_range};
ghost use Rattle.omega_hoa_automaton.specs.Faults.{are_out_of_range as out_of_range};
ghost use Rattle.omega_hoa_automaton.specs.Faults.{item_bound as bound_of_item};
ghost use Rattle.omega_hoa_automaton.specs.Faults.{mentioned_count as count_mentioned};
ghost use Rattle.omega_hoa_automaton.specs.Faults.{passes, state_bound as bound_of_state};
ghost use Rattle.omega_hoa_automaton.specs.Faults.{state_count as count_of_states};
ghost use Rattle.omega_hoa_automaton.specs.Items.{first_said, start_in, states_in};
ghost use Rattle.omega_hoa_automaton.specs.private.layout.Body.{AreCountsOf, IsFoundOfStates};

use crate::judging::body::BodyFound;
use crate::judging::counts::Counts;
use omega_hoa_syntax::{RawAutomaton, RawEdges, RawItem, RawState};
use omega_text::MOST_NUMBER;

/// Whether a mentioned state is not below the count of states, or a start or an edge lists none
/// ([AutomatonFault::StateRange]).
#[tactic(auto, unfolding(crate::specs::Faults::has_state_out_of_range))]
pub(crate) fn has_state_out_of_range(raw: &RawAutomaton, counts: Counts, found: BodyFound) -> bool
    requires counts { AreCountsOf raw.now counts }
    requires found { IsFoundOfStates counts raw.now.states found }
    ensures { result ≡ state_out_of_range raw.now }
{
    any_start_out_of_range(raw.items.as_slice(), counts.states) || found.state
}

/// Whether one of `items` is a start whose states are out of range.
fn any_start_out_of_range(items: &[RawItem], count: u32) -> bool
    ensures { result ≡ list_any (λ item. passes (out_of_range count) (start_in item)) items.now }
{
    for item in items {
        if is_start_out_of_range(item, count) {
            return true;
        }
    }
    false
}

/// Whether one of `numbers` is not below `count`.
pub(crate) fn any_beyond(numbers: &[u32], count: u32) -> bool
    ensures { result ≡ list_any (nat_le count) numbers.now }
{
    numbers.iter().any(|number| count <= *number)
}

/// Whether the states that a start or an edge lists are not all below `count`, or there are none, which no text writes.
pub(crate) fn are_out_of_range(states: &[u32], count: u32) -> bool
    ensures { result ≡ out_of_range count states.now }
{
    states.is_empty() || any_beyond(states, count)
}

/// Whether `item` is a start whose states are out of range.
fn is_start_out_of_range(item: &RawItem, count: u32) -> bool
    ensures { result ≡ passes (out_of_range count) (start_in item.now) }
{
    match item {
        RawItem::Start(states) => are_out_of_range(states.as_slice(), count),
        _ => false,
    }
}

/// Returns the count of states: that of `States:`, or else by the mentioned states. A count over the greatest number of
/// a text is then that number.
pub(crate) fn state_count(raw: &RawAutomaton) -> u32
    ensures { result ≡ count_of_states raw.now }
{
    match stated_count(raw.items.as_slice()) {
        Some(count) => count,
        None => mentioned_count(raw),
    }
}

/// Returns the count in the first `States:`.
fn stated_count(items: &[RawItem]) -> Option<u32>
    ensures { result ≡ first_said states_in items.now }
{
    for item in items {
        if let RawItem::States(count) = item {
            return Some(*count);
        }
    }
    None
}

/// Returns the greatest mentioned state plus one, but at most the greatest number of a text.
#[tactic(auto, unfolding(crate::specs::Faults::mentioned_count))]
fn mentioned_count(raw: &RawAutomaton) -> u32
    ensures { result ≡ count_mentioned raw.now }
{
    let started = items_bound(raw.items.as_slice());
    let named = states_bound(raw.states.as_slice());
    started.max(named).min(u64::from(MOST_NUMBER)) as u32
}

/// Returns the greatest of `numbers` plus one, or 0 without numbers.
#[tactic(auto, using(crate::proofs::Greatest::greatest_more))]
fn bound_of(numbers: &[u32]) -> u64
    ensures value { result ≡ bound_in numbers.now }
    ensures range { result ≤ 2 ^ 32 }
{
    let mut bound = 0u64;
    for number in numbers {
        bound = bound.max(u64::from(*number) + 1);
    }
    bound
}

/// Returns the greatest state that the starts mention, plus one.
#[tactic(auto, using(crate::proofs::Greatest::greatest_more))]
fn items_bound(items: &[RawItem]) -> u64
    ensures value { result ≡ greatest_of bound_of_item items.now }
    ensures range { result ≤ 2 ^ 32 }
{
    let mut bound = 0u64;
    for item in items {
        bound = bound.max(item_bound(item));
    }
    bound
}

/// Returns the greatest state of a start, plus one, or 0 if `item` is no start.
fn item_bound(item: &RawItem) -> u64
    ensures value { result ≡ bound_of_item item.now }
    ensures range { result ≤ 2 ^ 32 }
{
    match item {
        RawItem::Start(states) => bound_of(states.as_slice()),
        _ => 0,
    }
}

/// Returns the greatest state that the body mentions, plus one.
#[tactic(auto, using(crate::proofs::Greatest::greatest_more))]
fn states_bound(states: &[RawState]) -> u64
    ensures value { result ≡ greatest_of bound_of_state states.now }
    ensures range { result ≤ 2 ^ 32 }
{
    let mut bound = 0u64;
    for state in states {
        bound = bound.max(state_bound(state));
    }
    bound
}

/// Returns the greatest state that `state` of the body mentions, plus one.
fn state_bound(state: &RawState) -> u64
    ensures value { result ≡ bound_of_state state.now }
    ensures range { result ≤ 2 ^ 32 }
{
    let targets = edges_bound(&state.edges);
    targets.max(u64::from(state.number) + 1)
}

/// Returns the greatest state that `edges` lead to, plus one.
#[tactic(auto, using(crate::proofs::Greatest::greatest_more))]
fn edges_bound(edges: &RawEdges) -> u64
    ensures value { result ≡ greatest_of (λ edge. bound_in edge.targets) edges.now }
    ensures range { result ≤ 2 ^ 32 }
{
    let mut bound = 0u64;
    for at in 0..edges.len() {
        bound = bound.max(bound_of(edges.edge(at).targets()));
    }
    bound
}
