//! Formulas, the names that are given, and who wins them, as worked out by hand.
use super::list_of;
use crate::rows::{assert_row, number_of};
use omega_answers_synth::{
    Exit, GivenNames, decide_formula_realizability, verify_formula_controller,
    verify_formula_counter_strategy, write_formula_game, write_formula_winner,
};
use omega_io::Refused;
use omega_text::{ByteString, Refusal};
use std::alloc::Global;

/// Who wins a formula, or the number of the refusal.
#[derive(Clone, Copy)]
enum Outcome {
    Realizable,
    Unrealizable,
    Refused(u32),
}

/// A list of names, if it is given.
type Names = Option<&'static [&'static str]>;

/// A formula, the names of the system and of the environment, and who wins.
type Row = (&'static str, Names, Names, Outcome);

const ARBITER: &str = "G !(g0 & g1) & G(r0 -> F g0) & G(r1 -> F g1)";

static ROWS: [Row; 30] = [
    // The system grants in turns, and also where it grants at once.
    (ARBITER, Some(&["g0", "g1"]), None, Outcome::Realizable),
    (ARBITER, None, Some(&["r1", "r0"]), Outcome::Realizable),
    // The environment requests and grants.
    (ARBITER, Some(&[]), None, Outcome::Unrealizable),
    // Both request at once.
    (
        "G !(g0 & g1) & G(r0 -> g0) & G(r1 -> g1)",
        Some(&["g0", "g1"]),
        Some(&["r0", "r1"]),
        Outcome::Unrealizable,
    ),
    // The system knows the request of its round, and not the next one.
    ("G(g <-> r)", Some(&["g"]), None, Outcome::Realizable),
    ("G(r <-> X g)", Some(&["g"]), None, Outcome::Realizable),
    ("G(g <-> X r)", Some(&["g"]), None, Outcome::Unrealizable),
    ("G(g <-> X r)", None, Some(&["r"]), Outcome::Unrealizable),
    // All names are outputs, or all are inputs.
    ("G(g <-> X r)", Some(&["g", "r"]), None, Outcome::Realizable),
    ("G(g <-> X r)", None, Some(&[]), Outcome::Realizable),
    (
        "G(g <-> X r)",
        None,
        Some(&["g", "r"]),
        Outcome::Unrealizable,
    ),
    ("F a & F !a", Some(&["a"]), Some(&[]), Outcome::Realizable),
    ("F a | G !a", Some(&[]), Some(&["a"]), Outcome::Realizable),
    // No names, or a constant beside one.
    ("1", Some(&[]), None, Outcome::Realizable),
    ("1", None, Some(&[]), Outcome::Realizable),
    ("0", Some(&[]), None, Outcome::Unrealizable),
    ("a & 0", Some(&["a"]), None, Outcome::Unrealizable),
    // A grant is due where requests recur, and none where they do not.
    ("G F r <-> G F g", Some(&["g"]), None, Outcome::Realizable),
    // The environment may go on for ever.
    (
        "F r -> F(r & X g & X !r)",
        Some(&["g"]),
        None,
        Outcome::Unrealizable,
    ),
    // The text of the formula comes first.
    ("(a", Some(&["b"]), None, Outcome::Refused(3)),
    ("a $ b", None, None, Outcome::Refused(1)),
    // No list, a name that the formula does not have, and names in none or in both lists.
    ("a & b", None, None, Outcome::Refused(58)),
    ("1", None, None, Outcome::Refused(58)),
    ("a & b", Some(&["a", "c"]), None, Outcome::Refused(58)),
    ("a & b", None, Some(&["c"]), Outcome::Refused(58)),
    ("a & b", Some(&["a"]), Some(&[]), Outcome::Refused(58)),
    (
        "a & b",
        Some(&["a", "b"]),
        Some(&["b"]),
        Outcome::Refused(58),
    ),
    (
        "a & b",
        Some(&["a"]),
        Some(&["b", "c"]),
        Outcome::Refused(58),
    ),
    // The names before the size of the automaton: 17 names, 13 of them in one part.
    (
        "G(a | b | c | d | e | f | g | h | i | j | k | l | m)",
        Some(&["n"]),
        None,
        Outcome::Refused(58),
    ),
    (
        "G(a | b | c | d | e | f | g | h | i | j | k | l | m)",
        Some(&["a"]),
        None,
        Outcome::Refused(55),
    ),
];

/// Returns names as a list, which is empty if they are not given.
fn name_list(alloc: Global, names: Names) -> Result<Vec<ByteString>, Refusal> {
    match names {
        Some(names) => list_of(alloc, names),
        None => Ok(Vec::new(alloc)),
    }
}

/// Returns a list, if it is given.
fn if_given(given: Names, list: &[ByteString]) -> Option<&[ByteString]> {
    match given {
        Some(_) => Some(list),
        None => None,
    }
}

/// Whether this is answered.
fn is_answer(answer: &Result<(Exit, Vec<u8>), Refusal>, exit: Exit, line: &[u8]) -> bool {
    match answer {
        Ok((found, text)) => *found == exit && text.as_slice() == line,
        Err(_) => false,
    }
}

/// Returns the judgement on the text of a winner, which is a controller where the exit is [Exit::Done].
fn judgement_on(
    alloc: Global,
    formula: &[u8],
    names: GivenNames<'_>,
    exit: Exit,
    text: &[u8],
) -> Result<(Exit, Vec<u8>), Refused> {
    if exit == Exit::Done {
        verify_formula_controller(alloc, formula, names, text, false)
    } else {
        verify_formula_counter_strategy(alloc, formula, names, text, false)
    }
}

/// Whether a judgement is `yes`.
fn is_yes(judgement: Result<(Exit, Vec<u8>), Refused>) -> bool {
    match judgement {
        Ok((exit, text)) => exit == Exit::Done && text.as_slice() == b"yes\n".as_slice(),
        Err(_) => false,
    }
}

/// Whether an answer has this exit, and its text is judged to be that of the winner.
fn is_winner(
    alloc: Global,
    formula: &[u8],
    names: GivenNames<'_>,
    answer: &Result<(Exit, Vec<u8>), Refusal>,
    exit: Exit,
) -> bool {
    match answer {
        Ok((found, text)) => {
            *found == exit && is_yes(judgement_on(alloc, formula, names, exit, text.as_slice()))
        }
        Err(_) => false,
    }
}

/// Whether a formula with these names has this outcome.
fn is_outcome(alloc: Global, formula: &[u8], names: GivenNames<'_>, outcome: Outcome) -> bool {
    let line = decide_formula_realizability(alloc, formula, names);
    let winner = write_formula_winner(alloc, formula, names);
    match outcome {
        Outcome::Realizable => {
            is_answer(&line, Exit::Done, b"realizable\n")
                && is_winner(alloc, formula, names, &winner, Exit::Done)
        }
        Outcome::Unrealizable => {
            is_answer(&line, Exit::No, b"unrealizable\n")
                && is_winner(alloc, formula, names, &winner, Exit::No)
        }
        Outcome::Refused(number) => {
            let game = write_formula_game(alloc, formula, names);
            number_of(&line) == number && number_of(&winner) == number && number_of(&game) == number
        }
    }
}

/// Whether a row holds.
fn is_row(alloc: Global, row: &Row) -> bool {
    let (formula, outs, ins, outcome) = *row;
    match (name_list(alloc, outs), name_list(alloc, ins)) {
        (Ok(out_list), Ok(in_list)) => {
            let names = GivenNames {
                outs: if_given(outs, out_list.as_slice()),
                ins: if_given(ins, in_list.as_slice()),
            };
            is_outcome(alloc, formula.as_bytes(), names, outcome)
        }
        _ => false,
    }
}

#[test]
fn formulas_are_decided(rt: HostRuntime) {
    for (row, formula) in ROWS.iter().enumerate() {
        assert_row(&rt, row, is_row(rt.alloc(), formula));
    }
}
