//! Circuits as texts: faults with their places, how texts of circuits begin, and both forms as they are written.
use crate::rows::{assert_row, is_text};
use omega_aiger::{aag_text, aig_text, begins_as_circuit, read_aiger};
use omega_circuit::{Circuit, canonical_circuit};
use std::alloc::{AllocError, Global};

/// Texts, and the number and the place of what each is refused by: 0 if it is read, or has no place.
static OUTCOMES: [(&[u8], u32, usize); 31] = [
    (b"aag 1 1 0 1 0\n2\n2\ni0 ask\no0 grant\n", 0, 0),
    (b"REALIZABLE\naag 1 1 0 1 0\n2\n2\n", 0, 0),
    (b"REALIZABLE\naag 1 1 0 1 0\n02\n2\n", 2, 25),
    (b"REALIZABLE\nREALIZABLE\naag 1 1 0 1 0\n2\n2\n", 3, 11),
    (b"REALIZABLE\n", 3, 11),
    (b"UNREALIZABLE\n", 3, 0),
    (b"aag 0 0 0 1 0\n1\no0 grant\n", 0, 0),
    (b"aag 1 0 1 1 0\n2 3\n2\n", 0, 0),
    (b"aag 1 0 1 2 0\n2 3 1\n2\n3\n", 0, 0),
    (b"aig 1 1 0 1 0\n2\ni0 ask\no0 grant\nc\n\xff\x00", 0, 0),
    // The first gate uses the second; then each uses the other.
    (b"aag 4 2 0 1 2\n2\n4\n8\n8 6 2\n6 4 2\n", 0, 0),
    (b"aag 3 1 0 1 2\n2\n4\n4 6 2\n6 4 2\n", 74, 0),
    (b"aag 1 1 0 1 0\n02\n2\n", 2, 14),
    (b"aag 1 1 0 1 0\n2\n2", 3, 17),
    (b"aag 1 1 1 0 0\n2\n2 2\n", 70, 0),
    (b"aag 2 1 1 0 0\n2\n2 2\n", 72, 0),
    (b"aag 1 1 0 1 0\n2\n4\n", 71, 0),
    (b"aig 1 0 0 1 1\n2\n\x00\x02", 71, 0),
    (b"aag 2 1 0 1 0\n2\n4\n", 73, 0),
    (b"aag 1 0 1 1 0\n2 3 2\n2\n", 75, 0),
    (b"aag 1 1 0 1 0\n2\n2\no1 x\n", 76, 0),
    (b"aag 1 1 0 0 0 1\n2\n2\n", 77, 0),
    (b"aag 1 1 0 1 0 1\n2\n2\n2\n", 77, 0),
    (b"aig 2 1 0 1 1\n4\n\x02\x00", 0, 0),
    (b"aig 2 1 0 1 1\n4\n\x82\x00\x00", 0, 0),
    (b"aig 2 1 0 1 1\n4\n\xff\xff\xff\xff\x1f\x00", 2, 16),
    (b"aig 2 1 0 1 1\n4\n\x02", 3, 17),
    (b"aag 2147483648 0 0 0 0\n", 2, 4),
    (b"aig 2147483647 2147483647 0 0 0\n", 70, 0),
    (b"aag 1 1 0 1 0\r\n2\n2\n", 3, 13),
    (b"aag 1 1 0 1 0\n2\n2\nc0 x\n", 76, 0),
];

/// Whether a text is read, or refused by this number at this place.
fn is_outcome(alloc: Global, text: &[u8], number: u32, place: usize) -> bool {
    match read_aiger(alloc, text) {
        Ok(_) => number == 0,
        Err(refusal) => refusal.number() == number && refusal.at().unwrap_or(0) == place,
    }
}

#[test]
fn texts_have_their_faults(rt: HostRuntime) {
    for (row, (text, number, place)) in OUTCOMES.iter().enumerate() {
        assert_row(&rt, row, is_outcome(rt.alloc(), text, *number, *place));
    }
}

/// Texts, and whether each begins as one of a circuit.
static BEGINNINGS: [(&[u8], bool); 9] = [
    (b"aag 1 1 0 1 0\n2\n2\n", true),
    (b"aig ", true),
    (b"REALIZABLE\naag ", true),
    (b"REALIZABLE\naig 0", true),
    (b"REALIZABLE\nREALIZABLE\naag ", false),
    (b"REALIZABLE\n", false),
    (b"UNREALIZABLE\n", false),
    (b"aag\n", false),
    (b"HOA: v1\n", false),
];

#[test]
fn texts_begin_as_circuits(rt: HostRuntime) {
    for (row, (text, begins)) in BEGINNINGS.iter().enumerate() {
        assert_row(&rt, row, begins_as_circuit(text) == *begins);
    }
}

/// Texts, and what is written of their circuits in the ASCII form.
static WRITTEN: [(&[u8], &[u8]); 6] = [
    (
        b"aag 3 1 1 1 1\n2\n4 7\n5\n6 5 3\ni0 ask\no0 grant\nc\nany",
        b"aag 3 1 1 1 1\n2\n4 7\n5\n6 5 3\ni0 ask\no0 grant\n",
    ),
    (
        b"aag 1 0 1 2 0\n2 3 1\n2\n3\n",
        b"aag 1 0 1 2 0\n2 3 1\n2\n3\n",
    ),
    (b"aag 1 0 1 1 0 0 0\n2 3 0\n2\n", b"aag 1 0 1 1 0\n2 3\n2\n"),
    (
        b"aag 9 2 0 1 2\n2\n4\n8\n8 6 2\n6 4 2\n",
        b"aag 4 2 0 1 2\n2\n4\n8\n8 6 2\n6 4 2\n",
    ),
    (
        b"aig 2 1 0 1 1\n4\n\x02\x00i0 \n",
        b"aag 2 1 0 1 1\n2\n4\n4 2 2\ni0 \n",
    ),
    (b"REALIZABLE\naag 0 0 0 1 0\n1\n", b"aag 0 0 0 1 0\n1\n"),
];

/// Whether this is written of the circuit of a text.
fn is_written(alloc: Global, text: &[u8], written: &[u8]) -> bool {
    match read_aiger(alloc, text) {
        Ok(circuit) => is_text(aag_text(alloc, &circuit), written),
        Err(_) => false,
    }
}

#[test]
fn circuits_are_written(rt: HostRuntime) {
    for (row, (text, written)) in WRITTEN.iter().enumerate() {
        assert_row(&rt, row, is_written(rt.alloc(), text, written));
    }
}

/// Texts, and what is written of the canonical forms of their circuits in the ASCII form and in the binary form.
static CANONICAL: [(&[u8], &[u8], &[u8]); 4] = [
    // The first gate uses the second.
    (
        b"aag 9 2 0 1 2\n2\n4\n8\n8 6 2\n6 4 2\n",
        b"aag 4 2 0 1 2\n2\n4\n8\n6 4 2\n8 6 2\n",
        b"aig 4 2 0 1 2\n8\n\x02\x02\x02\x04",
    ),
    // The variables stand the other way round, and the lesser operand is first.
    (
        b"aag 3 1 1 1 1\n6\n4 2 1\n3\n2 7 4\ni0 ask\no0 grant\n",
        b"aag 3 1 1 1 1\n2\n4 6 1\n7\n6 4 3\ni0 ask\no0 grant\n",
        b"aig 3 1 1 1 1\n6 1\n7\n\x02\x01i0 ask\no0 grant\n",
    ),
    // It is in canonical form.
    (
        b"aag 3 1 1 1 1\n2\n4 7\n5\n6 5 3\n",
        b"aag 3 1 1 1 1\n2\n4 7\n5\n6 5 3\n",
        b"aig 3 1 1 1 1\n7\n5\n\x01\x02",
    ),
    // A delta takes two bytes: the gate has the literal 142, and 140 is 12 + 128.
    (
        b"aig 71 70 0 1 1\n142\n\x8c\x01\x02",
        b"aag 71 70 0 1 1\n2\n4\n6\n8\n10\n12\n14\n16\n18\n20\n22\n24\n26\n28\n30\n32\n34\n36\n\
          38\n40\n42\n44\n46\n48\n50\n52\n54\n56\n58\n60\n62\n64\n66\n68\n70\n72\n74\n76\n78\n80\n\
          82\n84\n86\n88\n90\n92\n94\n96\n98\n100\n102\n104\n106\n108\n110\n112\n114\n116\n118\n\
          120\n122\n124\n126\n128\n130\n132\n134\n136\n138\n140\n142\n142 2 0\n",
        b"aig 71 70 0 1 1\n142\n\x8c\x01\x02",
    ),
];

/// Whether these two are written of a circuit.
fn has_texts(
    alloc: Global,
    made: Result<Circuit, AllocError>,
    ascii: &[u8],
    binary: &[u8],
) -> bool {
    match made {
        Ok(circuit) => {
            is_text(aag_text(alloc, &circuit), ascii) && is_text(aig_text(alloc, &circuit), binary)
        }
        Err(_) => false,
    }
}

/// Whether these two are written of the canonical form of the circuit of a text.
fn is_canonical(alloc: Global, text: &[u8], ascii: &[u8], binary: &[u8]) -> bool {
    match read_aiger(alloc, text) {
        Ok(circuit) => has_texts(alloc, canonical_circuit(alloc, &circuit), ascii, binary),
        Err(_) => false,
    }
}

#[test]
fn canonical_forms_are_written(rt: HostRuntime) {
    for (row, (text, ascii, binary)) in CANONICAL.iter().enumerate() {
        assert_row(&rt, row, is_canonical(rt.alloc(), text, ascii, binary));
    }
}
