//! The lines about a state that is none and about one that is defined twice.

ghost use Rattle.std.specs.Prelude.{◌≡◌, ◌++◌, [], true, codes, decimal, IfOk, IsOkUnless, OnOk};
ghost use Rattle.std.specs.List.{AllByRecursion};
ghost use Rattle.omega_hoa_syntax.specs.Grammar.{IsRawItem, IsRawState};
ghost use Rattle.omega_hoa_automaton.specs.Faults.{has_state_out_of_range, state_count};
ghost use Rattle.omega_hoa_automaton.specs.Items.{first_said, states_in};
ghost use Rattle.omega_hoa_diagnostics.specs.Finding.{first_found, line_about};
ghost use Rattle.omega_hoa_diagnostics.specs.States.{first_state_twice, first_state_beyond};
ghost use Rattle.omega_hoa_diagnostics.specs.States.{no_state, no_state_line, start_beyond};
ghost use Rattle.omega_hoa_diagnostics.specs.States.{state_beyond, state_range_line};
ghost use Rattle.omega_hoa_diagnostics.specs.States.{state_twice_line, target_beyond, twice_line};

use crate::finding::first_beyond;
use crate::lines::{append, line_beginning};
use indexmap::IndexSet;
use omega_hoa_automaton::RawAutomaton;
use omega_hoa_syntax::{RawEdges, RawItem, RawState};
use omega_text::{MOST_NUMBER, Refusal};
use std::alloc::Global;

/// Where a text mentions a state.
#[derive(Clone, Copy)]
pub(crate) enum StateMention {
    Start(u32),
    /// The number of a state of the body.
    Number(u32),
    /// An edge of a state, and a state that it leads to.
    Edge { source: u32, target: u32 },
}

/// Returns the line about the first mentioned state that is none.
pub(crate) fn state_range_line(alloc: Global, raw: &RawAutomaton) -> Result<Vec<u8>, Refusal>
    requires items { AllByRecursion IsRawItem raw.now.items }
    requires states { AllByRecursion IsRawState raw.now.states }
    requires refused { has_state_out_of_range raw.now ≡ true }
    ensures line { IfOk result (λ line. line.items ≡ state_range_line raw.now) }
    ensures memory { IsOkUnless result Refusal.Memory }
{
    let count = state_count(raw);
    match first_state_beyond(raw, count) {
        Some(mention) => no_state_line(alloc, count, mention),
        None => Ok(Vec::new(alloc)),
    }
}

/// Returns the count of states of an automaton that mentions a state beyond it.
///
/// Without `States:` the count is one more than the greatest state, but at most the greatest number of a text. So a
/// state beyond it is that number, and the count is too.
#[tactic(auto, using(crate::proofs::Counts::count_is))]
fn state_count(raw: &RawAutomaton) -> u32
    requires items { AllByRecursion IsRawItem raw.now.items }
    requires states { AllByRecursion IsRawState raw.now.states }
    requires refused { has_state_out_of_range raw.now ≡ true }
    ensures { result ≡ state_count raw.now }
{
    stated_count(raw.items.as_slice()).unwrap_or(MOST_NUMBER)
}

/// Returns the count in the first `States:`.
fn stated_count(items: &[RawItem]) -> Option<u32>
    ensures { result ≡ first_said states_in items.now }
{
    for item in items {
        if let RawItem::States(count) = item {
            return Some(*count);
        }
    }
    None
}

/// Returns the first mentioned state that is not below `count`, the count of states.
fn first_state_beyond(raw: &RawAutomaton, count: u32) -> Option<StateMention>
    requires { count ≡ state_count raw.now }
    ensures { result ≡ first_state_beyond raw.now }
{
    match first_start_beyond(raw.items.as_slice(), count) {
        Some(mention) => Some(mention),
        None => first_in_body_beyond(raw.states.as_slice(), count),
    }
}

/// Returns the first state of a start that is not below `count`.
fn first_start_beyond(items: &[RawItem], count: u32) -> Option<StateMention>
    ensures { result ≡ first_found (start_beyond count) items.now }
{
    for item in items {
        if let Some(mention) = start_beyond(item, count) {
            return Some(mention);
        }
    }
    None
}

/// Returns the first state of a start that is not below `count`, if `item` is a start.
fn start_beyond(item: &RawItem, count: u32) -> Option<StateMention>
    ensures { result ≡ start_beyond count item.now }
{
    match item {
        RawItem::Start(states) => {
            let state = first_beyond(states.as_slice(), count)?;
            Some(StateMention::Start(state))
        }
        _ => None,
    }
}

/// Returns the first state that the body mentions and that is not below `count`.
fn first_in_body_beyond(states: &[RawState], count: u32) -> Option<StateMention>
    ensures { result ≡ first_found (state_beyond count) states.now }
{
    for state in states {
        if let Some(mention) = state_beyond(state, count) {
            return Some(mention);
        }
    }
    None
}

/// Returns the number of a state if it is not below `count`, else the first such that its edges lead to.
fn state_beyond(state: &RawState, count: u32) -> Option<StateMention>
    ensures { result ≡ state_beyond count state.now }
{
    if count <= state.number {
        return Some(StateMention::Number(state.number));
    }
    first_target_beyond(&state.edges, state.number, count)
}

/// Returns the first state that the edges of the state `source` lead to and that is not below `count`.
fn first_target_beyond(edges: &RawEdges, source: u32, count: u32) -> Option<StateMention>
    ensures { result ≡ first_found (target_beyond count source) edges.now }
{
    for at in 0..edges.len() {
        if let Some(target) = first_beyond(edges.edge(at).targets(), count) {
            return Some(StateMention::Edge { source, target });
        }
    }
    None
}

/// Returns the line about a mentioned state that is none, where there are `count`.
fn no_state_line(alloc: Global, count: u32, mention: StateMention) -> Result<Vec<u8>, Refusal>
    ensures line { IfOk result (λ line. line.items ≡ no_state_line count mention) }
    ensures memory { IsOkUnless result Refusal.Memory }
{
    let mut line = match mention {
        StateMention::Start(state) => line_beginning(alloc, b"omega: start ", state)?,
        StateMention::Number(state) => line_beginning(alloc, b"omega: state ", state)?,
        StateMention::Edge { source, target } => edge_begun(alloc, source, target)?,
    };
    append_no_state(&mut line, count)?;
    Ok(line)
}

/// Returns the beginning of the line about an edge.
fn edge_begun(alloc: Global, source: u32, target: u32) -> Result<Vec<u8>, Refusal>
    ensures line { IfOk result (λ line.
        line.items ≡ codes "omega: state " ++ (decimal source ++ (codes ": " ++ decimal target))) }
    ensures memory { IsOkUnless result Refusal.Memory }
{
    let mut line = line_beginning(alloc, b"omega: state ", source)?;
    append(&mut line, b": ", target)?;
    Ok(line)
}

/// Appends the end of a line about a number that is no state.
fn append_no_state(line: &mut Vec<u8>, count: u32) -> Result<(), Refusal>
    ensures line { OnOk result (line.new.items ≡ line.old.items ++ no_state count) }
    ensures memory { IsOkUnless result Refusal.Memory }
{
    append(line, b" is no state, there are ", count)?;
    line.push(b'\n')?;
    Ok(())
}

/// Returns the line about the first state that is defined twice.
pub(crate) fn state_twice_line(alloc: Global, raw: &RawAutomaton) -> Result<Vec<u8>, Refusal>
    ensures line { IfOk result (λ line. line.items ≡ state_twice_line raw.now) }
    ensures memory { IsOkUnless result Refusal.Memory }
{
    let mut seen = IndexSet::new(alloc);
    match first_state_twice(raw.states.as_slice(), &mut seen) {
        Ok(found) => found_twice_line(alloc, found),
        Err(refusal) => Err(refusal),
    }
}

/// Returns the line about a state that was found to be defined twice, or no bytes if none was.
fn found_twice_line(alloc: Global, found: Option<u32>) -> Result<Vec<u8>, Refusal>
    ensures line { IfOk result (λ line. line.items ≡ line_about twice_line found) }
    ensures memory { IsOkUnless result Refusal.Memory }
{
    match found {
        Some(state) => twice_line(alloc, state),
        None => Ok(Vec::new(alloc)),
    }
}

/// Returns the first number that a state before has, with `seen` empty at the start.
fn first_state_twice(states: &[RawState], seen: &mut IndexSet<u32>) -> Result<Option<u32>, Refusal>
    requires { seen.old.keys ≡ [] }
    ensures twice { IfOk result (λ found. found ≡ first_state_twice states.now) }
    ensures memory { IsOkUnless result Refusal.Memory }
{
    for state in states {
        if !seen.insert(state.number)? {
            return Ok(Some(state.number));
        }
    }
    Ok(None)
}

/// Returns the line about a state that is defined twice.
fn twice_line(alloc: Global, state: u32) -> Result<Vec<u8>, Refusal>
    ensures line { IfOk result (λ line. line.items ≡ twice_line state) }
    ensures memory { IsOkUnless result Refusal.Memory }
{
    let mut line = line_beginning(alloc, b"omega: state ", state)?;
    line.extend_from_slice(b" is defined twice\n")?;
    Ok(line)
}
