//! Nondeterministic automata of single formulas by their edges, and words that tell them apart. Bit i of a letter is
//! the name i.
use crate::formulas::words::WordRow;
use omega_ltl_determinization::{NondeterministicAutomaton, Refusal};
use std::alloc::Global;

/// The source, the target, the marks and the letters of an edge.
pub(super) type EdgeRow = (u32, u32, u64, u64);

/// Returns the automaton with these edges, which come state by state. Each state has one. Runs begin in the state 0.
pub(super) fn automaton_of(
    alloc: Global,
    names: u32,
    sets: u32,
    edges: &[EdgeRow],
) -> Result<NondeterministicAutomaton, Refusal> {
    let mut automaton = NondeterministicAutomaton::new(alloc, names, sets)?;
    automaton.add_start(0)?;
    let mut state = 0;
    for edge in edges {
        if edge.0 != state {
            automaton.end_state()?;
            state = edge.0;
        }
        automaton.add_edge(alloc, edge.1, edge.2, &[edge.3])?;
    }
    automaton.end_state()?;
    Ok(automaton)
}

// `F G a`, and `G F !a`.
pub(super) const PERSISTENCE: [EdgeRow; 3] = [(0, 0, 0, 0b11), (0, 1, 1, 0b10), (1, 1, 1, 0b10)];

pub(super) const NOT_PERSISTENCE: [EdgeRow; 2] = [(0, 0, 0, 0b10), (0, 0, 1, 0b01)];

pub(super) const PERSISTENCE_WORDS: [WordRow; 5] = [
    (&[], &[1], true),
    (&[0, 1, 0], &[1, 1], true),
    (&[], &[0, 1], false),
    (&[1, 1, 1], &[1, 1, 0], false),
    (&[1], &[0], false),
];

// `G F a`, and `F G !a`.
pub(super) const RECURRENCE: [EdgeRow; 2] = [(0, 0, 0, 0b11), (0, 0, 1, 0b10)];

pub(super) const NOT_RECURRENCE: [EdgeRow; 3] = [(0, 0, 0, 0b11), (0, 1, 1, 0b01), (1, 1, 1, 0b01)];

pub(super) const RECURRENCE_WORDS: [WordRow; 4] = [
    (&[], &[1], true),
    (&[0], &[0, 1, 0], true),
    (&[1, 1], &[0], false),
    (&[], &[0], false),
];

// `F a`, and `G !a`.
pub(super) const FINALLY: [EdgeRow; 3] = [(0, 0, 0, 0b01), (0, 1, 1, 0b10), (1, 1, 1, 0b11)];

pub(super) const NOT_FINALLY: [EdgeRow; 1] = [(0, 0, 1, 0b01)];

// `a U b`: with both the run may stay or leave. Then the same where it has to leave, and `!(a U b)`.
pub(super) const UNTIL: [EdgeRow; 3] = [(0, 0, 0, 0b1010), (0, 1, 1, 0b1100), (1, 1, 1, 0b1111)];

pub(super) const UNTIL_SPLIT: [EdgeRow; 3] = [
    (0, 0, 0, 0b0010),
    (0, 1, 1, 0b1100),
    (1, 1, 1, 0b1111),
];

pub(super) const NOT_UNTIL: [EdgeRow; 3] = [
    (0, 0, 1, 0b0010),
    (0, 1, 1, 0b0001),
    (1, 1, 1, 0b1111),
];

pub(super) const UNTIL_WORDS: [WordRow; 6] = [
    (&[1, 1, 2], &[0], true),
    (&[3], &[0, 1], true),
    (&[1, 3, 3], &[1], true),
    (&[], &[1], false),
    (&[1, 0, 2], &[2], false),
    (&[0], &[3], false),
];

// `G(p -> F q)`, and `F(p & G !q)`.
pub(super) const RESPONSE: [EdgeRow; 4] = [
    (0, 0, 1, 0b1101),
    (0, 1, 0, 0b0010),
    (1, 0, 1, 0b1100),
    (1, 1, 0, 0b0011),
];

pub(super) const NOT_RESPONSE: [EdgeRow; 3] = [
    (0, 0, 0, 0b1111),
    (0, 1, 1, 0b0010),
    (1, 1, 1, 0b0011),
];

pub(super) const RESPONSE_WORDS: [WordRow; 5] = [
    (&[], &[0], true),
    (&[1, 0, 0, 2], &[0], true),
    (&[], &[1, 0, 2], true),
    (&[2, 1], &[0], false),
    (&[3], &[2, 1, 3], true),
];

// `G F a & G F b` in one automaton: one set for each.
pub(super) const FAIRNESS: [EdgeRow; 4] = [
    (0, 0, 0, 0b0001),
    (0, 0, 1, 0b0010),
    (0, 0, 2, 0b0100),
    (0, 0, 3, 0b1000),
];

pub(super) const FAIRNESS_WORDS: [WordRow; 4] = [
    (&[], &[1, 2], true),
    (&[0], &[2, 0, 1, 1], true),
    (&[3, 3], &[2, 0], false),
    (&[], &[3], true),
];

// `G !(a & b)`, and `F(a & b)`.
pub(super) const EXCLUSION: [EdgeRow; 1] = [(0, 0, 1, 0b0111)];

pub(super) const NOT_EXCLUSION: [EdgeRow; 3] = [
    (0, 0, 0, 0b0111),
    (0, 1, 1, 0b1000),
    (1, 1, 1, 0b1111),
];
