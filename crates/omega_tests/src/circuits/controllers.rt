//! Circuits of small controllers, worked out by hand.
use crate::rows::{assert_row, is_text, number_of};
use omega_aiger::aag_text;
use omega_circuit_encoder::{Circuit, circuit_of_controller};
use omega_hoa::read_one;
use omega_text::Refusal;
use std::alloc::Global;

/// The text of a controller, the propositions that the system controls, and the text of its circuit.
type Row = (&'static str, &'static [u32], &'static [u8]);

static CIRCUITS: [Row; 7] = [
    // A label that demands nothing of the output where the input is false.
    (
        "HOA: v1 States: 4 Start: 0 Acceptance: 0 t AP: 2 \"ask\" \"grant\" --BODY-- State: 0 [!0 | 1] 0 --END--",
        &[1],
        b"aag 1 1 0 1 0\n2\n2\ni0 ask\no0 grant\n",
    ),
    // Without inputs.
    (
        "HOA: v1 States: 4 Start: 0 Acceptance: 0 t AP: 1 \"grant\" --BODY-- State: 0 [!0] 1 State: 1 [0] 0 --END--",
        &[0],
        b"aag 1 0 1 1 0\n2 3\n2\no0 grant\n",
    ),
    // Two clients by turns. The other two states choose alike.
    (
        "HOA: v1 States: 4 Start: 0 Acceptance: 0 t AP: 4 \"grant0\" \"ask0\" \"ask1\" \"grant1\" --BODY--
            State: 0 [0&!3] 1 State: 1 [!0&3] 2 State: 2 [0&!3] 3 State: 3 [!0&3] 0 --END--",
        &[3, 0],
        b"aag 3 2 1 2 0\n2\n4\n6 7\n7\n6\ni0 ask0\ni1 ask1\no0 grant0\no1 grant1\n",
    ),
    // A counter of two bits.
    (
        "HOA: v1 States: 4 Start: 0 Acceptance: 0 t AP: 1 \"full\" --BODY--
            State: 3 [0] 0 State: 2 [!0] 3 State: 1 [!0] 2 State: 0 [!0] 1 --END--",
        &[0],
        b"aag 6 0 2 1 4\n2 3\n4 13\n6\n6 4 2\n8 4 3\n10 5 2\n12 11 9\no0 full\n",
    ),
    // Each request is granted at once or in the next round, and never are two granted.
    (
        "HOA: v1 States: 4 Start: 0 Acceptance: 0 t AP: 4 \"ask0\" \"ask1\" \"grant0\" \"grant1\" --BODY--
            State: 0 [(!0 | 2) & (!1 | 3) & !(2 & 3)] 0 [0 & !2 & (!1 | 3)] 1 [1 & !3 & (!0 | 2)] 2
            State: 1 [2 & !3 & !1] 0 [2 & !3 & 1] 2 State: 2 [!2 & 3 & !0] 0 [!2 & 3 & 0] 1 --END--",
        &[2, 3],
        b"aag 16 2 2 2 12\n2\n4\n6 29\n8 32\n14\n19\n10 5 2\n12 11 7\n14 13 9\n16 7 4\n18 17 9\n20 4 2\n\
          22 20 7\n24 8 2\n26 22 9\n28 27 25\n30 6 4\n32 30 9\ni0 ask0\ni1 ask1\no0 grant0\no1 grant1\n",
    ),
    // The second edge answers both letters. The first answers one, and is then not taken at the other, since the second
    // was taken before.
    (
        "HOA: v1 States: 4 Start: 0 Acceptance: 0 t AP: 2 \"ask\" \"grant\" --BODY--
            State: 0 [0 & !1] 0 [1] 0 --END--",
        &[1],
        b"aag 1 1 0 1 0\n2\n1\ni0 ask\no0 grant\n",
    ),
    // A label whose outputs are not those that are tried first, and an output of which nothing is demanded.
    (
        "HOA: v1 States: 4 Start: 0 Acceptance: 0 t AP: 4 \"ask\" \"a\" \"b\" \"c\" --BODY--
            State: 0 [(1 | 2) & (!1 | !0) & (!2 | 0)] 0 --END--",
        &[1, 2, 3],
        b"aag 1 1 0 3 0\n2\n3\n2\n0\ni0 ask\no0 a\no1 b\no2 c\n",
    ),
];

/// Returns the circuit of the controller of a text.
fn circuit_in(alloc: Global, text: &str, controlled: &[u32]) -> Result<Circuit, Refusal> {
    match read_one(alloc, text.as_bytes()) {
        Ok(controller) => circuit_of_controller(alloc, &controller, controlled),
        Err(refusal) => Err(refusal),
    }
}

/// Whether a row holds.
fn is_circuit(alloc: Global, row: &Row) -> bool {
    let (controller, controlled, text) = *row;
    match circuit_in(alloc, controller, controlled) {
        Ok(circuit) => is_text(aag_text(alloc, &circuit), text),
        Err(_) => false,
    }
}

#[test]
fn controllers_have_these_circuits(rt: HostRuntime) {
    for (row, circuit) in CIRCUITS.iter().enumerate() {
        assert_row(&rt, row, is_circuit(rt.alloc(), circuit));
    }
}

/// The text of a controller, the propositions that the system controls, and the number of the refusal.
static REFUSED: [(&str, &[u32], u32); 3] = [
    // A name that no symbol can have.
    (
        "HOA: v1 States: 4 Start: 0 Acceptance: 0 t AP: 1 \"\" --BODY-- State: 0 [t] 0 --END--",
        &[],
        78,
    ),
    // No edge answers one of the letters.
    (
        "HOA: v1 States: 4 Start: 0 Acceptance: 0 t AP: 2 \"ask\" \"grant\" --BODY--
            State: 0 [0 & 1] 0 [!0 & 1 & !1] 0 --END--",
        &[1],
        55,
    ),
    // A label that mentions thirteen inputs.
    (
        "HOA: v1 States: 4 Start: 0 Acceptance: 0 t
            AP: 13 \"a\" \"b\" \"c\" \"d\" \"e\" \"f\" \"g\" \"h\" \"i\" \"j\" \"k\" \"l\" \"m\" --BODY--
            State: 0 [0 | 1 | 2 | 3 | 4 | 5 | 6 | 7 | 8 | 9 | 10 | 11 | 12 | t] 0 --END--",
        &[],
        42,
    ),
];

#[test]
fn controllers_are_refused(rt: HostRuntime) {
    for (row, (controller, controlled, number)) in REFUSED.iter().enumerate() {
        let made = circuit_in(rt.alloc(), controller, controlled);
        assert_row(&rt, row, number_of(&made) == *number);
    }
}
