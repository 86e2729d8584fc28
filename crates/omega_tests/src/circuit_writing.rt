//! Circuits that are written for specifications and for formulas, as worked out by hand.
use crate::rows::assert_row;
use omega_answers_circuit::{CircuitForm, write_formula_circuit, write_winning_circuit};
use omega_answers_synth::GivenNames;
use omega_io::Exit;
use omega_text::{ByteString, Refusal};
use std::alloc::{AllocError, Global};
use std::test::Fail;

// Each request is granted at once.
const ONCE: &str = "HOA: v1 States: 1 Start: 0 AP: 2 \"ask\" \"grant\" controllable-AP: 1
    acc-name: all Acceptance: 0 t --BODY-- State: 0 [!0 | 1] 0 --END--";

// Grants recur, but never while the environment is busy.
const BUSY: &str = "HOA: v1 States: 1 Start: 0 AP: 2 \"busy\" \"grant\" controllable-AP: 1
    acc-name: Buchi Acceptance: 1 Inf(0) --BODY-- State: 0 [!0 & 1] 0 {0} [!1] 0 --END--";

// Nothing is demanded; the outputs stand before the input.
const OPEN: &str = "HOA: v1 States: 1 Start: 0 AP: 3 \"x\" \"y\" \"in\" controllable-AP: 1 0
    acc-name: all Acceptance: 0 t --BODY-- State: 0 [t] 0 --END--";

// An output is the conjunction of two inputs.
const BOTH: &str = "HOA: v1 States: 1 Start: 0 AP: 3 \"a\" \"b\" \"both\" controllable-AP: 2
    acc-name: all Acceptance: 0 t --BODY-- State: 0 [0 & 1 & 2] 0 [!(0 & 1) & !2] 0 --END--";

// Without the item; with an empty name; and with two edges at one letter.
const UNSTATED: &str = "HOA: v1 States: 1 Start: 0 AP: 2 \"ask\" \"grant\"
    acc-name: all Acceptance: 0 t --BODY-- State: 0 [!0 | 1] 0 --END--";

const NAMELESS: &str = "HOA: v1 States: 1 Start: 0 AP: 2 \"\" \"grant\" controllable-AP: 1
    acc-name: all Acceptance: 0 t --BODY-- State: 0 [!0 | 1] 0 --END--";

const CHOOSING: &str = "HOA: v1 States: 1 Start: 0 AP: 2 \"ask\" \"grant\" controllable-AP: 1
    acc-name: all Acceptance: 0 t --BODY-- State: 0 [!0] 0 [1] 0 --END--";

/// What is written: a circuit, the line that there is none, or nothing but the number of a refusal.
#[derive(Clone, Copy, Debug)]
enum Wanted {
    Circuit(&'static [u8]),
    Unrealizable,
    Refusal(u32),
}

use CircuitForm::{Ascii, Binary};
use Wanted::{Circuit, Unrealizable};

/// Whether that is written which is wanted.
fn is_written(made: &Result<(Exit, Vec<u8>), Refusal>, wanted: Wanted) -> bool {
    match (made, wanted) {
        (Ok((exit, text)), Wanted::Circuit(circuit)) => {
            *exit == Exit::Done && text.as_slice() == circuit
        }
        (Ok((exit, text)), Wanted::Unrealizable) => {
            *exit == Exit::No && text.as_slice() == b"unrealizable\n".as_slice()
        }
        (Err(found), Wanted::Refusal(number)) => found.number() == number,
        _ => false,
    }
}

// A specification, the form that is asked for, and what is written.
static SPECIFICATIONS: [(&str, CircuitForm, Wanted); 12] = [
    // A wire.
    (
        ONCE,
        Ascii,
        Circuit(b"aag 1 1 0 1 0\n2\n2\ni0 ask\no0 grant\n"),
    ),
    (
        ONCE,
        Binary,
        Circuit(b"aig 1 1 0 1 0\n2\ni0 ask\no0 grant\n"),
    ),
    (BUSY, Ascii, Unrealizable),
    (BUSY, Binary, Unrealizable),
    // Outputs of which nothing is demanded are 0, and stand in the order of the propositions.
    (
        OPEN,
        Ascii,
        Circuit(b"aag 1 1 0 2 0\n2\n0\n0\ni0 in\no0 x\no1 y\n"),
    ),
    (
        OPEN,
        Binary,
        Circuit(b"aig 1 1 0 2 0\n0\n0\ni0 in\no0 x\no1 y\n"),
    ),
    // One gate.
    (
        BOTH,
        Ascii,
        Circuit(b"aag 3 2 0 1 1\n2\n4\n6\n6 4 2\ni0 a\ni1 b\no0 both\n"),
    ),
    (
        BOTH,
        Binary,
        Circuit(b"aig 3 2 0 1 1\n6\n\x02\x02i0 a\ni1 b\no0 both\n"),
    ),
    ("HOA: v2", Ascii, Wanted::Refusal(3)),
    (UNSTATED, Ascii, Wanted::Refusal(58)),
    (CHOOSING, Ascii, Wanted::Refusal(56)),
    (NAMELESS, Ascii, Wanted::Refusal(78)),
];

#[test]
fn circuits_are_written_for_specifications(rt: HostRuntime) -> Result<(), Fail> {
    for row in 0..SPECIFICATIONS.len() {
        let (specification, form, wanted) = SPECIFICATIONS[row];
        let made = write_winning_circuit(rt.alloc(), specification.as_bytes(), form);
        assert_row(&rt, row, is_written(&made, wanted));
    }
    Ok(())
}

/// A list of names, if it is given.
type Names = Option<&'static [&'static str]>;

// A formula, the names of the system and of the environment, the form that is asked for, and what is written.
static FORMULAS: [(&str, Names, Names, CircuitForm, Wanted); 9] = [
    (
        "G(g <-> r)",
        Some(&["g"]),
        None,
        Ascii,
        Circuit(b"aag 1 1 0 1 0\n2\n2\ni0 r\no0 g\n"),
    ),
    (
        "G(g <-> !r)",
        None,
        Some(&["r"]),
        Binary,
        Circuit(b"aig 1 1 0 1 0\n3\ni0 r\no0 g\n"),
    ),
    // All names are outputs, or all are inputs.
    (
        "G g",
        Some(&["g"]),
        None,
        Ascii,
        Circuit(b"aag 0 0 0 1 0\n1\no0 g\n"),
    ),
    ("1", Some(&[]), None, Ascii, Circuit(b"aag 0 0 0 0 0\n")),
    (
        "G(b | !b)",
        Some(&[]),
        None,
        Ascii,
        Circuit(b"aag 1 1 0 0 0\n2\ni0 b\n"),
    ),
    ("G(g <-> X r)", Some(&["g"]), None, Ascii, Unrealizable),
    (
        "F a | G !a",
        Some(&[]),
        None,
        Ascii,
        Circuit(b"aag 1 1 0 0 0\n2\ni0 a\n"),
    ),
    ("(g", Some(&["g"]), None, Ascii, Wanted::Refusal(3)),
    ("G g", Some(&["r"]), None, Ascii, Wanted::Refusal(58)),
];

/// Returns names as a list.
fn strings(alloc: Global, names: Names) -> Result<Vec<ByteString>, AllocError> {
    let mut list = Vec::new(alloc);
    if let Some(names) = names {
        for name in names {
            list.push(ByteString::from_slice(alloc, name.as_bytes())?)?;
        }
    }
    Ok(list)
}

/// Returns a list, if it is given.
fn if_given(given: Names, list: &[ByteString]) -> Option<&[ByteString]> {
    match given {
        Some(_) => Some(list),
        None => None,
    }
}

#[test]
fn circuits_are_written_for_formulas(rt: HostRuntime) -> Result<(), Fail> {
    for row in 0..FORMULAS.len() {
        let (formula, outs, ins, form, wanted) = FORMULAS[row];
        let out_list = strings(rt.alloc(), outs)?;
        let in_list = strings(rt.alloc(), ins)?;
        let names = GivenNames {
            outs: if_given(outs, out_list.as_slice()),
            ins: if_given(ins, in_list.as_slice()),
        };
        let made = write_formula_circuit(rt.alloc(), formula.as_bytes(), names, form);
        assert_row(&rt, row, is_written(&made, wanted));
    }
    Ok(())
}
