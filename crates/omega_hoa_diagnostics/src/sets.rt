//! The line about a set that is none.

ghost use Rattle.std.specs.Prelude.{◌≡◌, ◌++◌, codes, decimal, option_map, unwrap_or, IfOk, IsOkUnless, OnOk};
ghost use Rattle.omega_hoa_automaton.specs.Faults.{set_count};
ghost use Rattle.omega_hoa_automaton.specs.Items.{acceptance_in, first_said};
ghost use Rattle.omega_hoa_diagnostics.specs.Finding.{first_found};
ghost use Rattle.omega_hoa_diagnostics.specs.Sets.{first_set_beyond, formula_set_beyond, greatest_set};
ghost use Rattle.omega_hoa_diagnostics.specs.Sets.{item_set_beyond, mark_beyond, no_set, no_set_line};
ghost use Rattle.omega_hoa_diagnostics.specs.Sets.{set_range_line, state_set_beyond};

use crate::finding::first_beyond;
use crate::lines::{append, line_beginning};
use omega_hoa_acceptance::RawAcc;
use omega_hoa_automaton::RawAutomaton;
use omega_hoa_syntax::{RawEdges, RawItem, RawState};
use omega_text::{MOST_NUMBER, Refusal};
use std::alloc::Global;

/// Where a text mentions a set.
#[derive(Clone, Copy)]
pub(crate) enum SetMention {
    Acceptance(u32),
    /// A mark of a state or of an edge of it.
    Mark { state: u32, set: u32 },
}

/// Returns the line about the first mentioned set that is none.
pub(crate) fn set_range_line(alloc: Global, raw: &RawAutomaton) -> Result<Vec<u8>, Refusal>
    ensures line { IfOk result (λ line. line.items ≡ set_range_line raw.now) }
    ensures memory { IsOkUnless result Refusal.Memory }
{
    let count = set_count(raw.items.as_slice());
    match first_set_beyond(raw, count) {
        Some(mention) => no_set_line(alloc, count, mention),
        None => Ok(Vec::new(alloc)),
    }
}

/// Returns the count in the first acceptance, or 0 without one.
fn set_count(items: &[RawItem]) -> u32
    ensures { result ≡ unwrap_or
        (option_map (λ accepted. accepted.count) (first_said acceptance_in items.now)) 0 }
{
    for item in items {
        if let RawItem::Acceptance { count, .. } = item {
            return *count;
        }
    }
    0
}

/// Returns the first mentioned set that is not below `count`, the count of sets.
fn first_set_beyond(raw: &RawAutomaton, count: u32) -> Option<SetMention>
    requires { count ≡ set_count raw.now }
    ensures { result ≡ first_set_beyond raw.now }
{
    match first_accepted_beyond(raw.items.as_slice(), count) {
        Some(mention) => Some(mention),
        None => first_mark_beyond(raw.states.as_slice(), count),
    }
}

/// Returns the greatest set of the first acceptance that has one not below `count`.
fn first_accepted_beyond(items: &[RawItem], count: u32) -> Option<SetMention>
    ensures { result ≡ first_found (item_set_beyond count) items.now }
{
    for item in items {
        if let Some(mention) = item_set_beyond(item, count) {
            return Some(mention);
        }
    }
    None
}

/// Returns the greatest set of `item` if it is an acceptance and that is not below `count`.
fn item_set_beyond(item: &RawItem, count: u32) -> Option<SetMention>
    ensures { result ≡ item_set_beyond count item.now }
{
    match item {
        RawItem::Acceptance { formula, .. } => formula_set_beyond(formula, count),
        _ => None,
    }
}

/// Returns the greatest set of `formula` if it is not below `count`.
fn formula_set_beyond(formula: &RawAcc, count: u32) -> Option<SetMention>
    ensures { result ≡ formula_set_beyond count formula.now }
{
    if formula.sets_below(count) {
        return None;
    }
    Some(SetMention::Acceptance(greatest_set(formula)))
}

/// Returns the greatest set of `formula`, or 0 without sets, by halving. No text has a greater set than `MOST_NUMBER`,
/// and of no formula a greater number is returned.
#[tactic(auto, using(crate::proofs::Greatest::all_below, crate::proofs::Greatest::some_beyond))]
fn greatest_set(formula: &RawAcc) -> u32
    ensures { result ≡ greatest_set formula.now }
{
    let mut low = 0;
    let mut high = MOST_NUMBER;
    while low < high {
        let middle = low + (high - low) / 2;
        if formula.sets_below(middle + 1) {
            high = middle;
        } else {
            low = middle + 1;
        }
    }
    low
}

/// Returns the first mark of the body that is not below `count`.
fn first_mark_beyond(states: &[RawState], count: u32) -> Option<SetMention>
    ensures { result ≡ first_found (state_set_beyond count) states.now }
{
    for state in states {
        if let Some(mention) = state_set_beyond(state, count) {
            return Some(mention);
        }
    }
    None
}

/// Returns the first of the marks of a state and then of its edges that is not below `count`.
fn state_set_beyond(state: &RawState, count: u32) -> Option<SetMention>
    ensures { result ≡ state_set_beyond count state.now }
{
    match mark_beyond(state.marks.as_slice(), state.number, count) {
        Some(mention) => Some(mention),
        None => first_edge_mark_beyond(&state.edges, state.number, count),
    }
}

/// Returns the first of the marks of a state's edges that is not below `count`.
fn first_edge_mark_beyond(edges: &RawEdges, state: u32, count: u32) -> Option<SetMention>
    ensures { result ≡ first_found (λ edge. mark_beyond count state edge.marks) edges.now }
{
    for at in 0..edges.len() {
        if let Some(mention) = mark_beyond(edges.edge(at).marks(), state, count) {
            return Some(mention);
        }
    }
    None
}

/// Returns the first of `marks` that is not below `count`.
fn mark_beyond(marks: Option<&[u32]>, state: u32, count: u32) -> Option<SetMention>
    ensures { result ≡ mark_beyond count state (option_map (λ sets. sets.now) marks.entry) }
{
    let set = first_beyond(marks?, count)?;
    Some(SetMention::Mark { state, set })
}

/// Returns the line about a mentioned set that is none, where there are `count`.
fn no_set_line(alloc: Global, count: u32, mention: SetMention) -> Result<Vec<u8>, Refusal>
    ensures line { IfOk result (λ line. line.items ≡ no_set_line count mention) }
    ensures memory { IsOkUnless result Refusal.Memory }
{
    match mention {
        SetMention::Acceptance(set) => acceptance_line(alloc, count, set),
        SetMention::Mark { state, set } => mark_line(alloc, count, state, set),
    }
}

/// Returns the line about a set of the acceptance.
fn acceptance_line(alloc: Global, count: u32, set: u32) -> Result<Vec<u8>, Refusal>
    ensures line { IfOk result (λ line. line.items ≡ codes "omega: acceptance" ++ no_set count set) }
    ensures memory { IsOkUnless result Refusal.Memory }
{
    let mut line = Vec::new(alloc);
    line.extend_from_slice(b"omega: acceptance")?;
    append_no_set(&mut line, count, set)?;
    Ok(line)
}

/// Returns the line about a mark.
fn mark_line(alloc: Global, count: u32, state: u32, set: u32) -> Result<Vec<u8>, Refusal>
    ensures line { IfOk result
        (λ line. line.items ≡ codes "omega: state " ++ (decimal state ++ no_set count set)) }
    ensures memory { IsOkUnless result Refusal.Memory }
{
    let mut line = line_beginning(alloc, b"omega: state ", state)?;
    append_no_set(&mut line, count, set)?;
    Ok(line)
}

/// Appends the end of a line about a number that is no set.
fn append_no_set(line: &mut Vec<u8>, count: u32, set: u32) -> Result<(), Refusal>
    ensures line { OnOk result (line.new.items ≡ line.old.items ++ no_set count set) }
    ensures memory { IsOkUnless result Refusal.Memory }
{
    append(line, b": set ", set)?;
    append(line, b" is none, there are ", count)?;
    line.push(b'\n')?;
    Ok(())
}
