//! Automata of circuits of a few variables, worked out by hand.
use crate::rows::{assert_row, is_text, number_of};
use omega_aiger::read_aiger;
use omega_canon::canonical;
use omega_circuit_automaton::circuit_automaton;
use omega_hoa_automaton::{Automaton, Refusal};
use std::alloc::Global;

/// The texts of circuits and of their automata.
static AUTOMATA: [(&[u8], &[u8]); 5] = [
    // A wire.
    (
        b"aag 1 1 0 1 0\n2\n2\no0 grant\ni0 ask\n",
        b"HOA: v1\nStates: 1\nStart: 0\nAP: 2 \"ask\" \"grant\"\n\
          acc-name: all\nAcceptance: 0 t\ncontrollable-AP: 1\n--BODY--\n\
          State: 0\n[!0&!1] 0\n[0&1] 0\n--END--\n",
    ),
    // Two clients by turns, whatever they ask.
    (
        b"aag 3 2 1 2 0\n2\n4\n6 7\n7\n6\n",
        b"HOA: v1\nStates: 2\nStart: 0\nAP: 4 \"i0\" \"i1\" \"o0\" \"o1\"\n\
          acc-name: all\nAcceptance: 0 t\ncontrollable-AP: 2 3\n--BODY--\n\
          State: 0 \"0\"\n[2&!3] 1\nState: 1 \"1\"\n[!2&3] 0\n--END--\n",
    ),
    // A latch that begins with 1, and a circuit without inputs and outputs.
    (
        b"aag 1 0 1 0 0\n2 3 1\n",
        b"HOA: v1\nStates: 2\nStart: 0\nAP: 0\n\
          acc-name: all\nAcceptance: 0 t\ncontrollable-AP:\n--BODY--\n\
          State: 0 \"1\"\n[t] 1\nState: 1 \"0\"\n[t] 0\n--END--\n",
    ),
    // A counter of three latches, the first of which is the lowest bit. The gates are not in their order: `x` and `y`
    // is 14, and the exclusive or of `y` and `x` is 12, of `z` and 14 it is 20.
    (
        b"aag 10 0 3 1 6\n2 3\n4 12\n6 20\n6\n20 17 19\n16 6 14\n18 7 15\n12 15 11\n10 3 5\n14 4 2\n",
        b"HOA: v1\nStates: 8\nStart: 0\nAP: 1 \"o0\"\n\
          acc-name: all\nAcceptance: 0 t\ncontrollable-AP: 0\n--BODY--\n\
          State: 0 \"000\"\n[!0] 1\nState: 1 \"100\"\n[!0] 2\nState: 2 \"010\"\n[!0] 3\n\
          State: 3 \"110\"\n[!0] 4\nState: 4 \"001\"\n[0] 5\nState: 5 \"101\"\n[0] 6\n\
          State: 6 \"011\"\n[0] 7\nState: 7 \"111\"\n[0] 0\n--END--\n",
    ),
    // A token that goes round two clients: who has it is granted what it asks, else the other is. The first has it
    // while the latch is 0.
    (
        b"aag 10 2 1 2 6\n2\n4\n6 7\n17\n21\n8 6 4\n10 7 2\n12 2 9\n14 4 11\n16 11 13\n20 9 15\n",
        b"HOA: v1\nStates: 2\nStart: 0\nAP: 4 \"i0\" \"i1\" \"o0\" \"o1\"\n\
          acc-name: all\nAcceptance: 0 t\ncontrollable-AP: 2 3\n--BODY--\n\
          State: 0 \"0\"\n[!0&!1&!2&!3] 1\n[!0&1&!2&3] 1\n[0&2&!3] 1\n\
          State: 1 \"1\"\n[!0&!1&!2&!3] 0\n[0&!1&2&!3] 0\n[1&!2&3] 0\n--END--\n",
    ),
];

/// Returns the automaton of the circuit of a text.
fn automaton_in(alloc: Global, text: &[u8]) -> Result<Automaton, Refusal> {
    match read_aiger(alloc, text) {
        Ok(circuit) => circuit_automaton(alloc, &circuit),
        Err(refusal) => Err(refusal),
    }
}

/// Whether the automaton of the circuit of a text has this text.
fn is_automaton(alloc: Global, circuit: &[u8], text: &[u8]) -> bool {
    match automaton_in(alloc, circuit) {
        Ok(automaton) => is_text(canonical(alloc, &automaton), text),
        Err(_) => false,
    }
}

#[test]
fn automata_are_those_of_circuits(rt: HostRuntime) {
    for (row, (circuit, text)) in AUTOMATA.iter().enumerate() {
        assert_row(&rt, row, is_automaton(rt.alloc(), circuit, text));
    }
}

/// Wires whose input and output have names, and the number of the refusal of their automata, or 0.
static NAMES: [(&[u8], u32); 7] = [
    (b"aag 1 1 0 1 0\n2\n2\ni0 x\no0 x\n", 26),
    (b"aag 1 1 0 1 0\n2\n2\ni0 o0\no0 o0\n", 26),
    (b"aag 1 1 0 1 0\n2\n2\ni0 \"\no0 \"\n", 26),
    (b"aag 1 1 0 1 0\n2\n2\ni0 \"\no0 y\n", 78),
    (b"aag 1 1 0 1 0\n2\n2\ni0 x\no0 \\\n", 78),
    (b"aag 1 1 0 1 0\n2\n2\ni0 x\no0 \\\\\\\n", 78),
    (b"aag 1 1 0 1 0\n2\n2\ni0 \\\"\no0 \\\\\n", 0),
];

#[test]
fn names_are_refused(rt: HostRuntime) {
    for (row, (circuit, number)) in NAMES.iter().enumerate() {
        let made = automaton_in(rt.alloc(), circuit);
        assert_row(&rt, row, number_of(&made) == *number);
    }
}
