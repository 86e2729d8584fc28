//! Automata as they are written.
use omega_hoa_syntax::{RawAutomaton, RawEdgeRef, RawItem, RawState, read_raw};
use omega_text::{Cursor, Refusal, hoa_tokens};
use std::alloc::Global;

fn is_edge(edge: &RawEdgeRef<'_>) -> bool {
    let marks = match edge.marks() {
        Some(marks) => marks == [1, 1].as_slice(),
        None => false,
    };
    marks && edge.label().is_none() && edge.targets() == [2, 0].as_slice()
}

fn is_state(state: &RawState) -> bool {
    let name = match state.name.as_slice() {
        Some(name) => name == b"n\\\"".as_slice(),
        None => false,
    };
    let marks = match state.marks.as_slice() {
        Some(marks) => marks.is_empty(),
        None => false,
    };
    let edges = state.edges.len() == 1 && is_edge(&state.edges.edge(0));
    name && marks && edges && state.number == 1 && state.label.is_some()
}

fn is_automaton(raw: &RawAutomaton) -> bool {
    let items = match raw.items.as_slice() {
        [RawItem::States(count)] => *count == 3,
        _ => false,
    };
    let states = match raw.states.as_slice() {
        [state] => is_state(state),
        _ => false,
    };
    items && states && raw.version.as_slice() == b"v1".as_slice()
}

// What a text is read as.
fn raw_in(alloc: Global, text: &[u8]) -> Result<RawAutomaton, Refusal> {
    let tokens = hoa_tokens(alloc, text)?;
    read_raw(alloc, &mut Cursor::new(tokens.as_slice(), text.len()))
}

// Whether a text is read as that automaton.
fn is_read(alloc: Global, text: &str) -> bool {
    match raw_in(alloc, text.as_bytes()) {
        Ok(raw) => is_automaton(&raw),
        Err(_) => false,
    }
}

#[test]
fn what_is_written_is_kept(rt: HostRuntime) {
    let text = "HOA: v1 States: 3 --BODY-- State: [0] 1 \"n\\\"\" {} 2&0 {1 1} --END--";
    assert!(rt; is_read(rt.alloc(), text));
}
