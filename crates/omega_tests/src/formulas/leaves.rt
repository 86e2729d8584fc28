//! Automata of single formulas that are made deterministic.
ghost use Rattle.std.specs.Prelude.{IfOk};
ghost use Rattle.omega_ltl_determinization.specs.Deterministic.{IsWellFormed};

use crate::formulas::edges::*;
use crate::formulas::words::{WordRow, is_made_as_said};
use crate::rows::{assert_row, number_of};
use omega_ltl_determinization::{
    DeterministicAutomaton, NondeterministicAutomaton, Refusal, deterministic_automaton,
    smaller_automaton,
};
use std::alloc::Global;

/// More states than there are.
const MANY: u32 = 64;

/// The names and sets of an automaton, its edges, words, and how many states it has when it is made deterministic.
type LeafRow = (u32, u32, &'static [EdgeRow], &'static [WordRow], u32);

// Where both names of `UNTIL` hold, the state that has reached its goal simulates the other one.
static LEAVES: [LeafRow; 6] = [
    (1, 1, &PERSISTENCE, &PERSISTENCE_WORDS, 3),
    (1, 1, &RECURRENCE, &RECURRENCE_WORDS, 1),
    (2, 1, &UNTIL, &UNTIL_WORDS, 2),
    (2, 1, &UNTIL_SPLIT, &UNTIL_WORDS, 2),
    (2, 1, &RESPONSE, &RESPONSE_WORDS, 2),
    (2, 2, &FAIRNESS, &FAIRNESS_WORDS, 2),
];

/// Returns the deterministic automaton of a row.
fn deterministic_leaf(alloc: Global, row: &LeafRow) -> Result<DeterministicAutomaton, Refusal>
    ensures { IfOk result IsWellFormed }
{
    let (names, sets, edges, _, _) = *row;
    match automaton_of(alloc, names, sets, edges) {
        Ok(automaton) => deterministic_automaton(alloc, &automaton, MANY),
        Err(refusal) => Err(refusal),
    }
}

/// Returns that automaton, made smaller.
fn smaller_leaf(alloc: Global, row: &LeafRow) -> Result<DeterministicAutomaton, Refusal> {
    match deterministic_leaf(alloc, row) {
        Ok(automaton) => smaller_automaton(alloc, automaton),
        Err(refusal) => Err(refusal),
    }
}

#[test]
fn leaves_are_made_deterministic(rt: HostRuntime) {
    for (row, leaf) in LEAVES.iter().enumerate() {
        let (_, _, _, words, states) = *leaf;
        let found = is_made_as_said(&deterministic_leaf(rt.alloc(), leaf), states, words);
        let small = is_made_as_said(&smaller_leaf(rt.alloc(), leaf), states, words);
        assert_row(&rt, row, found && small);
    }
}

/// Whether an automaton was made, and is refused as too large where it may have so many states.
fn is_too_large(
    alloc: Global,
    made: Result<NondeterministicAutomaton, Refusal>,
    most: u32,
) -> bool {
    match made {
        Ok(automaton) => number_of(&deterministic_automaton(alloc, &automaton, most)) == 55,
        Err(_) => false,
    }
}

// 13 names, and two states where one is allowed.
#[test]
fn leaves_past_limits_are_refused(rt: HostRuntime) {
    let alloc = rt.alloc();
    let wide = NondeterministicAutomaton::new(alloc, 13, 0);
    assert!(rt; is_too_large(alloc, wide, MANY), "13 names");
    let response = automaton_of(alloc, 2, 1, &RESPONSE);
    assert!(rt; is_too_large(alloc, response, 1), "2 states");
}
