//! An automaton that is put together part by part, and that no text says.
use crate::rows::assert_row;
use omega_acc::RawAcc;
use omega_hoa_automaton::{
    Automaton, ByteString, Marks, Numbers, RawAutomaton, Refusal, Seq, automaton_of,
};
use omega_hoa_syntax::{RawEdge, RawEdges, RawItem, RawState, StateName};
use std::alloc::Global;

// A start and the acceptance of all runs.
fn items_with(alloc: Global, start: &[u32]) -> Result<Seq<RawItem>, Refusal> {
    let mut items = Vec::new(alloc);
    items.push(RawItem::Start(Numbers::from_slice(alloc, start)?))?;
    items.push(RawItem::Acceptance {
        count: 0,
        formula: RawAcc::constant(alloc, true)?,
    })?;
    Ok(Seq::from_vec(items))
}

// One edge.
fn edges_with(alloc: Global, targets: &[u32]) -> Result<RawEdges, Refusal> {
    let mut edges = RawEdges::new(alloc);
    let edge = RawEdge {
        label: None,
        targets: Numbers::from_slice(alloc, targets)?,
        marks: Marks::absent(),
    };
    edges.push(alloc, edge)?;
    Ok(edges)
}

// One state with an edge.
fn states_with(alloc: Global, targets: &[u32]) -> Result<Seq<RawState>, Refusal> {
    let mut states = Vec::new(alloc);
    states.push(RawState {
        label: None,
        number: 0,
        name: StateName::absent(),
        marks: Marks::absent(),
        edges: edges_with(alloc, targets)?,
    })?;
    Ok(Seq::from_vec(states))
}

// An automaton of one state with an edge, in which the start and the edge list these states.
fn raw_automaton_of(
    alloc: Global,
    start: &[u32],
    targets: &[u32],
) -> Result<RawAutomaton, Refusal> {
    let version = ByteString::from_slice(alloc, b"v1")?;
    let items = items_with(alloc, start)?;
    let states = states_with(alloc, targets)?;
    Ok(RawAutomaton {
        version,
        items,
        states,
    })
}

fn number_of(answer: Result<Automaton, Refusal>) -> u32 {
    match answer {
        Ok(_) => 0,
        Err(refusal) => refusal.number(),
    }
}

// The number of the refusal of that automaton, or 0.
fn outcome_of_lists(alloc: Global, start: &[u32], targets: &[u32]) -> u32 {
    match raw_automaton_of(alloc, start, targets) {
        Ok(raw) => number_of(automaton_of(alloc, raw)),
        Err(refusal) => refusal.number(),
    }
}

// The states that a start and an edge list, and the number of the refusal. No text writes an empty list of states. As a
// value it is refused with the states that are out of range.
static LISTS: [(&[u32], &[u32], u32); 3] = [(&[0], &[0], 0), (&[], &[0], 24), (&[0], &[], 24)];

#[test]
fn empty_lists_of_states_are_refused(rt: HostRuntime) {
    for (row, (start, targets, number)) in LISTS.iter().enumerate() {
        assert_row(
            &rt,
            row,
            outcome_of_lists(rt.alloc(), start, targets) == *number,
        );
    }
}
