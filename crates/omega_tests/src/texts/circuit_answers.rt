//! What `check`, `show`, `canon` and `automaton` answer to texts of circuits, worked out by hand.
use crate::rows::assert_row;
use omega_answers_circuit::{
    CircuitForm, canon_circuit, check_circuit, show_circuit, show_circuit_json,
    write_circuit_automaton,
};
use omega_text::Refusal;
use std::alloc::Global;

/// Whether the answer is this text.
fn is_text(answer: Result<Vec<u8>, Refusal>, text: &[u8]) -> bool {
    match answer {
        Ok(output) => output.as_slice() == text,
        Err(_) => false,
    }
}

/// The number and the place of a refusal; 0 if there is none.
fn refusal_of(answer: Result<Vec<u8>, Refusal>) -> (u32, usize) {
    match answer {
        Ok(_) => (0, 0),
        Err(refusal) => (refusal.number(), refusal.at().unwrap_or(0)),
    }
}

#[test]
fn checked_circuits(rt: HostRuntime) {
    let rows: [(&[u8], u32, usize); 16] = [
        (b"aag 4 2 0 1 2\n2\n4\n8\n8 6 2\n6 4 2\n", 0, 0),
        (b"REALIZABLE\naag 0 0 0 1 0\n1\n", 0, 0),
        (b"aag 3 1 0 1 2\n2\n4\n4 6 2\n6 4 2\n", 74, 0),
        (b"aag 1 1 0 1 0\n02\n2\n", 2, 14),
        (b"aag 1 1 0 1 0\n2\n2", 3, 17),
        (b"UNREALIZABLE\n", 3, 0),
        (b"aag 1 1 1 0 0\n2\n2 2\n", 70, 0),
        (b"aag 2 1 1 0 0\n2\n2 2\n", 72, 0),
        (b"aag 1 1 0 1 0\n2\n4\n", 71, 0),
        (b"aig 1 0 0 1 1\n2\n\x00\x02", 71, 0),
        (b"aag 2 1 0 1 0\n2\n4\n", 73, 0),
        (b"aag 1 0 1 1 0\n2 3 2\n2\n", 75, 0),
        (b"aag 1 1 0 1 0\n2\n2\no1 x\n", 76, 0),
        (b"aag 1 1 0 0 0 1\n2\n2\n", 77, 0),
        // Only `automaton` looks at names.
        (b"aag 1 1 0 1 0\n2\n2\ni0 x\no0 x\n", 0, 0),
        (b"aag 1 1 0 1 0\n2\n2\ni0 \"\n", 0, 0),
    ];
    for (row, (text, number, place)) in rows.iter().enumerate() {
        let answer = check_circuit(rt.alloc(), text);
        let holds = if *number == 0 {
            is_text(answer, b"accepted\n")
        } else {
            refusal_of(answer) == (*number, *place)
        };
        assert_row(&rt, row, holds);
    }
}

#[test]
fn shown_circuits(rt: HostRuntime) {
    let rows: [(&[u8], &[u8], &[u8]); 3] = [
        (
            b"aag 4 2 0 1 2\n2\n4\n8\n8 6 2\n6 4 2\n",
            b"circuit inputs 2 latches 0 outputs 1 gates 2\n",
            b"{\"inputs\":2,\"latches\":0,\"outputs\":1,\"gates\":2}\n",
        ),
        (
            b"aag 9 0 1 2 0\n2 3 1\n2\n3\nc\n",
            b"circuit inputs 0 latches 1 outputs 2 gates 0\n",
            b"{\"inputs\":0,\"latches\":1,\"outputs\":2,\"gates\":0}\n",
        ),
        (
            b"aig 12 12 0 0 0\n",
            b"circuit inputs 12 latches 0 outputs 0 gates 0\n",
            b"{\"inputs\":12,\"latches\":0,\"outputs\":0,\"gates\":0}\n",
        ),
    ];
    for (row, (text, line, object)) in rows.iter().enumerate() {
        let shown = is_text(show_circuit(rt.alloc(), text), line);
        let holds = shown && is_text(show_circuit_json(rt.alloc(), text), object);
        assert_row(&rt, row, holds);
    }
}

/// Whether the canonical texts of a text in both forms are these.
fn are_canonical(alloc: Global, text: &[u8], ascii: &[u8], binary: &[u8]) -> bool {
    is_text(canon_circuit(alloc, text, CircuitForm::Ascii), ascii)
        && is_text(canon_circuit(alloc, text, CircuitForm::Binary), binary)
}

#[test]
fn canonical_circuits(rt: HostRuntime) {
    let rows: [(&[u8], &[u8], &[u8]); 5] = [
        (
            b"REALIZABLE\naag 7 1 0 1 0\n2\n3\ni0 ask\no0 grant\nc\nby hand\n",
            b"aag 1 1 0 1 0\n2\n3\ni0 ask\no0 grant\n",
            b"aig 1 1 0 1 0\n3\ni0 ask\no0 grant\n",
        ),
        // The first gate uses the second.
        (
            b"aag 4 2 0 1 2\n2\n4\n8\n8 6 2\n6 4 2\n",
            b"aag 4 2 0 1 2\n2\n4\n8\n6 4 2\n8 6 2\n",
            b"aig 4 2 0 1 2\n8\n\x02\x02\x02\x04",
        ),
        // The variables have gaps, and the lesser operand stands first.
        (
            b"aag 9 1 1 1 1\n6\n18 11 1\n11\n10 6 19\ni0 x\n",
            b"aag 3 1 1 1 1\n2\n4 7 1\n7\n6 5 2\ni0 x\n",
            b"aig 3 1 1 1 1\n7 1\n7\n\x01\x03i0 x\n",
        ),
        (
            b"aig 2 1 0 1 1\n4\n\x02\x00",
            b"aag 2 1 0 1 1\n2\n4\n4 2 2\n",
            b"aig 2 1 0 1 1\n4\n\x02\x00",
        ),
        (b"aag 0 0 0 0 0\n", b"aag 0 0 0 0 0\n", b"aig 0 0 0 0 0\n"),
    ];
    for (row, (text, ascii, binary)) in rows.iter().enumerate() {
        let read = are_canonical(rt.alloc(), text, ascii, binary);
        let again = are_canonical(rt.alloc(), ascii, ascii, binary);
        let holds = read && again && are_canonical(rt.alloc(), binary, ascii, binary);
        assert_row(&rt, row, holds);
    }
    assert_eq!(rt;
        refusal_of(canon_circuit(rt.alloc(), b"aag 1", CircuitForm::Binary)),
        (3, 5)
    );
}

#[test]
fn automata_of_circuits(rt: HostRuntime) {
    let rows: [(&[u8], &[u8]); 2] = [
        (
            b"aag 1 1 0 1 0\n2\n2\ni0 ask\no0 grant\n",
            b"HOA: v1\nStates: 1\nStart: 0\nAP: 2 \"ask\" \"grant\"\nacc-name: all\nAcceptance: 0 t\n\
                controllable-AP: 1\n--BODY--\nState: 0\n[!0&!1] 0\n[0&1] 0\n--END--\n",
        ),
        (
            b"aag 3 2 1 2 0\n2\n4\n6 7\n7\n6\ni0 ask0\ni1 ask1\no0 grant0\no1 grant1\n",
            b"HOA: v1\nStates: 2\nStart: 0\nAP: 4 \"ask0\" \"ask1\" \"grant0\" \"grant1\"\nacc-name: all\n\
                Acceptance: 0 t\ncontrollable-AP: 2 3\n--BODY--\nState: 0 \"0\"\n[2&!3] 1\n\
                State: 1 \"1\"\n[!2&3] 0\n--END--\n",
        ),
    ];
    for (row, (text, automaton)) in rows.iter().enumerate() {
        let holds = is_text(write_circuit_automaton(rt.alloc(), text), automaton);
        assert_row(&rt, row, holds);
    }
}

#[test]
fn automata_that_are_refused(rt: HostRuntime) {
    let rows: [(&[u8], u32, usize); 5] = [
        (b"aag 1 1 0 1 0\n2\n2\ni0 x\no0 x\n", 26, 0),
        (b"aag 1 1 0 1 0\n2\n2\ni0 \"\n", 78, 0),
        (b"aag 1 1 0 1 0\n2\n2\no0 \\\n", 78, 0),
        (b"aag 1 1 0 1 0\n2\n2", 3, 17),
        (b"aag 2 1 1 0 0\n2\n2 2\n", 72, 0),
    ];
    for (row, (text, number, place)) in rows.iter().enumerate() {
        let refusal = refusal_of(write_circuit_automaton(rt.alloc(), text));
        assert_row(&rt, row, refusal == (*number, *place));
    }
}
