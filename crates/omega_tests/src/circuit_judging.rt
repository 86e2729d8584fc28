//! Circuits that are judged by specifications and by formulas.
use crate::rows::assert_row;
use omega_answers_circuit::{verify_circuit, verify_formula_circuit};
use omega_answers_synth::GivenNames;
use omega_io::{Exit, Refused, Which};
use omega_text::ByteString;
use std::alloc::{AllocError, Global};
use std::test::Fail;

// Each request is granted at once.
const ONCE: &str = "HOA: v1 States: 1 Start: 0 AP: 2 \"ask\" \"grant\" controllable-AP: 1
    acc-name: all Acceptance: 0 t --BODY-- State: 0 [!0 | 1] 0 --END--";

// Grants recur.
const OFTEN: &str = "HOA: v1 States: 1 Start: 0 AP: 2 \"ask\" \"grant\" controllable-AP: 1
    acc-name: Buchi Acceptance: 1 Inf(0) --BODY-- State: 0 [1] 0 {0} [!1] 0 --END--";

// Each of two requests is granted at once or in the next round, and never are two granted.
const ARBITER: &str = "HOA: v1 States: 3 Start: 0 AP: 4 \"ask0\" \"ask1\" \"grant0\" \"grant1\"
    controllable-AP: 2 3 acc-name: all Acceptance: 0 t --BODY--
    State: 0 [(!0 | 2) & (!1 | 3) & !(2 & 3)] 0 [0 & !2 & (!1 | 3)] 1 [1 & !3 & (!0 | 2)] 2
    State: 1 [2 & !3 & !1] 0 [2 & !3 & 1] 2
    State: 2 [!2 & 3 & !0] 0 [!2 & 3 & 0] 1 --END--";

// As ONCE, without the item; with an item that lists a number twice; with two edges at one letter; and with an edge to
// two states.
const UNSTATED: &str = "HOA: v1 States: 1 Start: 0 AP: 2 \"ask\" \"grant\"
    acc-name: all Acceptance: 0 t --BODY-- State: 0 [!0 | 1] 0 --END--";

const MISSTATED: &str = "HOA: v1 States: 1 Start: 0 AP: 2 \"ask\" \"grant\" controllable-AP: 1 1
    acc-name: all Acceptance: 0 t --BODY-- State: 0 [!0 | 1] 0 --END--";

const CHOOSING: &str = "HOA: v1 States: 1 Start: 0 AP: 2 \"ask\" \"grant\" controllable-AP: 1
    acc-name: all Acceptance: 0 t --BODY-- State: 0 [!0] 0 [1] 0 --END--";

const BRANCHING: &str = "HOA: v1 States: 2 Start: 0 AP: 2 \"ask\" \"grant\" controllable-AP: 1
    acc-name: all Acceptance: 0 t --BODY-- State: 0 [1] 0&1 State: 1 [t] 1 --END--";

/// How a circuit is judged: `yes`, or `no` and lines that begin so, or with the number of a refusal. This is one of the
/// file, the specification or the formula, or of the input, the circuit.
#[derive(Clone, Copy, Debug)]
enum Wanted {
    Yes,
    No(&'static str),
    File(u32),
    Input(u32),
}

use Wanted::{File, Input, No, Yes};

/// Whether a circuit is judged as it is wanted.
fn is_judged(made: &Result<(Exit, Vec<u8>), Refused>, wanted: Wanted) -> bool {
    match (made, wanted) {
        (Ok((exit, text)), Wanted::Yes) => {
            *exit == Exit::Done && text.as_slice() == b"yes\n".as_slice()
        }
        (Ok((exit, text)), Wanted::No(lines)) => {
            *exit == Exit::No
                && text.as_slice().starts_with(b"no\n")
                && text.as_slice()[3..].starts_with(lines.as_bytes())
        }
        (Err(found), Wanted::File(number)) => {
            found.refusal.number() == number && found.text == Some(Which::File)
        }
        (Err(found), Wanted::Input(number)) => {
            found.refusal.number() == number && found.text == Some(Which::Input)
        }
        _ => false,
    }
}

// A specification, the text of a circuit, and how it is judged.
static SPECIFICATIONS: [(&str, &[u8], Wanted); 28] = [
    // A wire, and its negation.
    (ONCE, b"aag 1 1 0 1 0\n2\n2\ni0 ask\no0 grant\n", Yes),
    (
        ONCE,
        b"aag 1 1 0 1 0\n2\n3\ni0 ask\no0 grant\n",
        No("stem 1\ncycle 1\nword ask & !grant & "),
    ),
    // No input is needed; a grant one round late; and none, which is open.
    (ONCE, b"aag 0 0 0 1 0\n1\no0 grant\n", Yes),
    (
        ONCE,
        b"aag 2 1 1 1 0\n2\n4 2\n4\ni0 ask\no0 grant\n",
        No("stem 1\ncycle 2 1\nword ask & !grant & "),
    ),
    (
        ONCE,
        b"aag 1 1 0 0 0\n2\ni0 ask\n",
        No("stem 0\ncycle 0\nword !(!ask | grant); cycle{1}\n"),
    ),
    // A comment is any bytes. The line of tools for synthesis is passed over, if it says that there is a circuit.
    (
        ONCE,
        b"aig 1 1 0 1 0\n2\ni0 ask\no0 grant\nc\n\xff\x00",
        Yes,
    ),
    (
        ONCE,
        b"REALIZABLE\naag 1 1 0 1 0\n2\n2\ni0 ask\no0 grant\n",
        Yes,
    ),
    (ONCE, b"UNREALIZABLE\naag 1 1 0 1 0\n2\n2\n", Input(3)),
    // Names that the specification lacks, by symbols and without, say nothing.
    (
        ONCE,
        b"aag 3 3 0 2 0\n2\n4\n6\n4\n3\ni0 more\ni1 ask\no0 grant\no1 less\n",
        Yes,
    ),
    // A toggle; and no grant after the first request, which only a cycle shows.
    (OFTEN, b"aag 1 0 1 1 0\n2 3\n2\no0 grant\n", Yes),
    (
        OFTEN,
        b"aag 3 1 1 1 1\n2\n4 7\n5\n6 5 3\ni0 ask\no0 grant\n",
        No("stem 1\ncycle 2\nword ask & grant; cycle{!grant}\n"),
    ),
    // By turns, and so with a latch that begins with 1, without inputs.
    (
        ARBITER,
        b"aag 3 2 1 2 0\n2\n4\n6 7\n7\n6\ni0 ask0\ni1 ask1\no0 grant0\no1 grant1\n",
        Yes,
    ),
    (
        ARBITER,
        b"aag 1 0 1 2 0\n2 3 1\n2\n3\no0 grant0\no1 grant1\n",
        Yes,
    ),
    // Two are granted at once, or the second waits for ever.
    (
        ARBITER,
        b"aag 2 2 0 2 0\n2\n4\n2\n4\ni0 ask0\ni1 ask1\no0 grant0\no1 grant1\n",
        No("stem 3\ncycle 3\nword ask0 & ask1 & grant0 & grant1 & "),
    ),
    (
        ARBITER,
        b"aag 3 2 0 2 1\n2\n4\n2\n6\n6 4 3\ni0 ask0\ni1 ask1\no0 grant0\no1 grant1\n",
        No("stem 2 2\ncycle 2\nword ask0 & grant0 & !grant1 & ask1 & "),
    ),
    // The text of the specification comes first, then that of the circuit, then the item.
    ("", b"aag", File(3)),
    (MISSTATED, b"aag 1 1 1 0 0\n2\n2 2\n", Input(70)),
    (MISSTATED, b"aag 1 1 0 1 0\n2\n2\ni0 x\no0 x\n", File(58)),
    // Then the names of the circuit: two alike, and one that cannot stand between quotes.
    (
        ONCE,
        b"aag 1 1 0 1 0\n2\n2\ni0 grant\no0 grant\n",
        Input(26),
    ),
    (ONCE, b"aag 1 1 0 1 0\n2\n2\ni0 grant\no0 a\"\n", Input(78)),
    // Then their sides: an input of the system, and an output of the environment.
    (ONCE, b"aag 1 1 0 1 0\n2\n2\ni0 grant\no0 ask\n", Input(58)),
    (ONCE, b"aag 1 1 0 0 0\n2\ni0 grant\n", Input(58)),
    (CHOOSING, b"aag 0 0 0 1 0\n0\no0 ask\n", Input(58)),
    (UNSTATED, b"aag 1 1 0 1 0\n2\n2\ni0 grant\no0 ask\n", Yes),
    // Then choices and universal branching of the specification.
    (
        CHOOSING,
        b"aag 1 1 0 1 0\n2\n2\ni0 ask\no0 grant\n",
        File(56),
    ),
    (
        BRANCHING,
        b"aag 1 1 0 1 0\n2\n2\ni0 ask\no0 grant\n",
        File(41),
    ),
    // More inputs than a controller may have, of which one matters.
    (
        ONCE,
        b"aag 14 14 0 1 0\n2\n4\n6\n8\n10\n12\n14\n16\n18\n20\n22\n24\n26\n28\n28\ni13 ask\no0 grant\n",
        Yes,
    ),
    // Positions are names where there is no symbol.
    (
        ONCE,
        b"aag 1 1 0 1 0\n2\n2\ni0 ask\n",
        No("stem 1\ncycle 1\nword ask & o0 & "),
    ),
];

#[test]
fn circuits_are_judged_by_specifications(rt: HostRuntime) -> Result<(), Fail> {
    for row in 0..SPECIFICATIONS.len() {
        let (specification, circuit, wanted) = SPECIFICATIONS[row];
        let made = verify_circuit(rt.alloc(), specification.as_bytes(), circuit, true);
        assert_row(&rt, row, is_judged(&made, wanted));
    }
    Ok(())
}

/// A list of names, if it is given.
type Names = Option<&'static [&'static str]>;

const GRANTED: &str = "G(ask -> grant)";

const WIRE: &[u8] = b"aag 1 1 0 1 0\n2\n2\ni0 ask\no0 grant\n";

// A formula, the names of the system and of the environment, the text of a circuit, and how it is judged.
static FORMULAS: [(&str, Names, Names, &[u8], Wanted); 17] = [
    (GRANTED, Some(&["grant"]), None, WIRE, Yes),
    (GRANTED, None, Some(&["ask"]), WIRE, Yes),
    (GRANTED, Some(&["grant"]), Some(&["ask"]), WIRE, Yes),
    (
        GRANTED,
        Some(&["grant"]),
        None,
        b"aag 1 1 0 1 0\n2\n3\ni0 ask\no0 grant\n",
        No("stem 1\ncycle 1\nword ask & !grant; cycle{ask & !grant}\n"),
    ),
    (
        "G F grant",
        Some(&["grant"]),
        None,
        b"aag 1 0 1 1 0\n2 3\n2\no0 grant\n",
        Yes,
    ),
    (
        "G F grant",
        Some(&["grant"]),
        None,
        b"aag 3 1 1 1 1\n2\n4 7\n5\n6 5 3\ni0 ask\no0 grant\n",
        No("stem 1 2\ncycle 2\nword ask & grant; !grant; cycle{!grant}\n"),
    ),
    // A name that the circuit lacks is open, and one that the formula lacks says nothing.
    (
        "G(ask -> grant | other)",
        Some(&["grant", "other"]),
        None,
        WIRE,
        Yes,
    ),
    (
        "F other",
        Some(&["other"]),
        None,
        WIRE,
        No("stem\ncycle 1\nword cycle{ask & grant & !other}\n"),
    ),
    (
        GRANTED,
        Some(&["grant"]),
        None,
        b"aag 2 2 0 2 0\n2\n4\n2\n5\ni0 ask\ni1 more\no0 grant\no1 less\n",
        Yes,
    ),
    // The text of the formula comes first, then that of the circuit, then the lists.
    ("(ask", None, None, b"aag", File(3)),
    (GRANTED, None, None, b"aag 1 1 1 0 0\n2\n2 2\n", Input(70)),
    (
        GRANTED,
        None,
        None,
        b"aag 1 1 0 1 0\n2\n2\ni0 x\no0 x\n",
        File(58),
    ),
    (GRANTED, Some(&["other"]), None, WIRE, File(58)),
    // Then the names of the circuit, then their sides.
    (
        GRANTED,
        Some(&["grant"]),
        None,
        b"aag 1 1 0 1 0\n2\n2\ni0 grant\no0 grant\n",
        Input(26),
    ),
    (
        GRANTED,
        Some(&["grant"]),
        None,
        b"aag 1 1 0 1 0\n2\n2\ni0 grant\no0 \\\n",
        Input(78),
    ),
    (GRANTED, Some(&["ask"]), None, WIRE, Input(58)),
    (
        GRANTED,
        Some(&[]),
        None,
        b"aag 0 0 0 1 0\n1\no0 grant\n",
        Input(58),
    ),
];

/// Returns names as a list.
fn strings(alloc: Global, names: Names) -> Result<Vec<ByteString>, AllocError> {
    let mut list = Vec::new(alloc);
    if let Some(names) = names {
        for name in names {
            list.push(ByteString::from_slice(alloc, name.as_bytes())?)?;
        }
    }
    Ok(list)
}

/// Returns a list, if it is given.
fn if_given(given: Names, list: &[ByteString]) -> Option<&[ByteString]> {
    match given {
        Some(_) => Some(list),
        None => None,
    }
}

#[test]
fn circuits_are_judged_by_formulas(rt: HostRuntime) -> Result<(), Fail> {
    for row in 0..FORMULAS.len() {
        let (formula, outs, ins, circuit, wanted) = FORMULAS[row];
        let out_list = strings(rt.alloc(), outs)?;
        let in_list = strings(rt.alloc(), ins)?;
        let names = GivenNames {
            outs: if_given(outs, out_list.as_slice()),
            ins: if_given(ins, in_list.as_slice()),
        };
        let made = verify_formula_circuit(rt.alloc(), formula.as_bytes(), circuit, names, true);
        assert_row(&rt, row, is_judged(&made, wanted));
    }
    Ok(())
}
