//! Automata and formulas whose answers are worked out by hand.
use crate::rows::assert_row;
use omega_hoa::read_one;
use omega_ltl_equality::{
    Automaton, Formula, FormulaEquality, Refusal, decide_formula_equality, judged_automaton,
};
use omega_ltl_text::read_formula;
use std::alloc::Global;

/// Whenever `a` comes, its edge is marked.
const OFTEN_A: &str = "HOA: v1\nStates: 1\nStart: 0\nAP: 1 \"a\"\nAcceptance: 1 Inf(0)\n--BODY--\n\
    State: 0\n[0] 0 {0}\n[!0] 0\n--END--\n";
/// The mark of [OFTEN_A] is on its other edge.
const OFTEN_NOT_A: &str =
    "HOA: v1\nStates: 1\nStart: 0\nAP: 1 \"a\"\nAcceptance: 1 Inf(0)\n--BODY--\n\
    State: 0\n[0] 0\n[!0] 0 {0}\n--END--\n";
/// Both edges are marked, so each word is accepted.
const EACH_WORD: &str =
    "HOA: v1\nStates: 1\nStart: 0\nAP: 1 \"a\"\nAcceptance: 1 Inf(0)\n--BODY--\n\
    State: 0\n[0] 0 {0}\n[!0] 0 {0}\n--END--\n";
/// No edge is marked, so no word is accepted.
const NO_WORD: &str = "HOA: v1\nStates: 1\nStart: 0\nAP: 1 \"a\"\nAcceptance: 1 Inf(0)\n--BODY--\n\
    State: 0\n[0] 0\n[!0] 0\n--END--\n";
/// A word without `a` is marked, and is to come finitely often.
const AT_LAST_A: &str =
    "HOA: v1\nStates: 1\nStart: 0\nAP: 1 \"a\"\nAcceptance: 1 Fin(0)\n--BODY--\n\
    State: 0\n[0] 0\n[!0] 0 {0}\n--END--\n";
/// The mark of [AT_LAST_A] is on its other edge.
const AT_LAST_NOT_A: &str =
    "HOA: v1\nStates: 1\nStart: 0\nAP: 1 \"a\"\nAcceptance: 1 Fin(0)\n--BODY--\n\
    State: 0\n[0] 0 {0}\n[!0] 0\n--END--\n";
/// `F G a` by a guess, from when on `a` holds.
const GUESSED_A: &str =
    "HOA: v1\nStates: 2\nStart: 0\nAP: 1 \"a\"\nAcceptance: 1 Inf(0)\n--BODY--\n\
    State: 0\n[t] 0\n[0] 1\nState: 1\n[0] 1 {0}\n--END--\n";
/// A mark for `a` and one for `b`, both to recur.
const OFTEN_BOTH: &str =
    "HOA: v1\nStates: 1\nStart: 0\nAP: 2 \"a\" \"b\"\nAcceptance: 2 Inf(0)&Inf(1)\n--BODY--\n\
    State: 0\n[0&1] 0 {0 1}\n[0&!1] 0 {0}\n[!0&1] 0 {1}\n[!0&!1] 0\n--END--\n";
/// One of the marks of [OFTEN_BOTH] is to recur.
const OFTEN_EITHER: &str =
    "HOA: v1\nStates: 1\nStart: 0\nAP: 2 \"a\" \"b\"\nAcceptance: 2 Inf(0)|Inf(1)\n--BODY--\n\
    State: 0\n[0&1] 0 {0 1}\n[0&!1] 0 {0}\n[!0&1] 0 {1}\n[!0&!1] 0\n--END--\n";
/// In state 1 a `p` waits for its `q`.
const RESPONSE: &str =
    "HOA: v1\nStates: 2\nStart: 0\nAP: 2 \"p\" \"q\"\nAcceptance: 1 Inf(0)\n--BODY--\n\
    State: 0\n[!0|1] 0 {0}\n[0&!1] 1\nState: 1\n[1] 0 {0}\n[!1] 1\n--END--\n";
/// A mark more where `p` comes: it recurs only if `q` does.
const RESPONSE_MARKED_TWICE: &str =
    "HOA: v1\nStates: 2\nStart: 0\nAP: 2 \"p\" \"q\"\nAcceptance: 1 Inf(0)\n--BODY--\n\
    State: 0\n[!0|1] 0 {0}\n[0&!1] 1 {0}\nState: 1\n[1] 0 {0}\n[!1] 1\n--END--\n";
/// The mark of `q` in state 1 is left out.
const RESPONSE_UNMARKED: &str =
    "HOA: v1\nStates: 2\nStart: 0\nAP: 2 \"p\" \"q\"\nAcceptance: 1 Inf(0)\n--BODY--\n\
    State: 0\n[!0|1] 0 {0}\n[0&!1] 1\nState: 1\n[1] 0\n[!1] 1\n--END--\n";
/// A mark where `q` does not come.
const RESPONSE_WAITING: &str =
    "HOA: v1\nStates: 2\nStart: 0\nAP: 2 \"p\" \"q\"\nAcceptance: 1 Inf(0)\n--BODY--\n\
    State: 0\n[!0|1] 0 {0}\n[0&!1] 1\nState: 1\n[1] 0 {0}\n[!1] 1 {0}\n--END--\n";
/// It begins as if `p` had come.
const RESPONSE_BEGUN: &str =
    "HOA: v1\nStates: 2\nStart: 1\nAP: 2 \"p\" \"q\"\nAcceptance: 1 Inf(0)\n--BODY--\n\
    State: 0\n[!0|1] 0 {0}\n[0&!1] 1\nState: 1\n[1] 0 {0}\n[!1] 1\n--END--\n";
/// State 1 is behind the `b`.
const UNTIL: &str =
    "HOA: v1\nStates: 2\nStart: 0\nAP: 2 \"a\" \"b\"\nAcceptance: 1 Inf(0)\n--BODY--\n\
    State: 0\n[1] 1\n[0&!1] 0\nState: 1\n[t] 1 {0}\n--END--\n";
/// `a` is not asked for before the `b`.
const UNTIL_WITHOUT_A: &str =
    "HOA: v1\nStates: 2\nStart: 0\nAP: 2 \"a\" \"b\"\nAcceptance: 1 Inf(0)\n--BODY--\n\
    State: 0\n[1] 1\n[!1] 0\nState: 1\n[t] 1 {0}\n--END--\n";
/// `b` need not come.
const UNTIL_WEAK: &str =
    "HOA: v1\nStates: 2\nStart: 0\nAP: 2 \"a\" \"b\"\nAcceptance: 1 Inf(0)\n--BODY--\n\
    State: 0\n[1] 1\n[0&!1] 0 {0}\nState: 1\n[t] 1 {0}\n--END--\n";
/// `b` has to come at once.
const UNTIL_AT_ONCE: &str =
    "HOA: v1\nStates: 2\nStart: 0\nAP: 2 \"a\" \"b\"\nAcceptance: 1 Inf(0)\n--BODY--\n\
    State: 0\n[1] 1\nState: 1\n[t] 1 {0}\n--END--\n";
/// `a` at the second letter.
const NEXT_A: &str = "HOA: v1\nStates: 3\nStart: 0\nAP: 1 \"a\"\nAcceptance: 0 t\n--BODY--\n\
    State: 0\n[t] 1\nState: 1\n[0] 2\nState: 2\n[t] 2\n--END--\n";
/// Not `a` at the second letter.
const NEXT_NOT_A: &str = "HOA: v1\nStates: 3\nStart: 0\nAP: 1 \"a\"\nAcceptance: 0 t\n--BODY--\n\
    State: 0\n[t] 1\nState: 1\n[!0] 2\nState: 2\n[t] 2\n--END--\n";
/// Any second letter.
const NEXT_ANY: &str = "HOA: v1\nStates: 3\nStart: 0\nAP: 1 \"a\"\nAcceptance: 0 t\n--BODY--\n\
    State: 0\n[t] 1\nState: 1\n[t] 2\nState: 2\n[t] 2\n--END--\n";
/// `a` at the first letter too.
const A_AND_NEXT_A: &str = "HOA: v1\nStates: 3\nStart: 0\nAP: 1 \"a\"\nAcceptance: 0 t\n--BODY--\n\
    State: 0\n[0] 1\nState: 1\n[0] 2\nState: 2\n[t] 2\n--END--\n";
/// [NEXT_A] with another name.
const NEXT_B: &str = "HOA: v1\nStates: 3\nStart: 0\nAP: 1 \"b\"\nAcceptance: 0 t\n--BODY--\n\
    State: 0\n[t] 1\nState: 1\n[0] 2\nState: 2\n[t] 2\n--END--\n";
/// Two starts.
const TWO_STARTS: &str =
    "HOA: v1\nStates: 2\nStart: 0\nStart: 1\nAP: 1 \"a\"\nAcceptance: 0 t\n--BODY--\n\
    State: 0\n[0] 0\nState: 1\n[0] 1\n--END--\n";
/// A start that lists two states.
const BRANCHING: &str = "HOA: v1\nStates: 2\nStart: 0&1\nAP: 1 \"a\"\nAcceptance: 0 t\n--BODY--\n\
    State: 0\n[t] 0\nState: 1\n[t] 1\n--END--\n";

/// What is answered: an answer without its counterexample, or the number of the refusal.
#[derive(Clone, Copy, PartialEq, Eq)]
enum Outcome {
    Equal,
    Excess,
    Missing,
    Refused(u32),
}

/// An automaton, a formula, and what is answered.
static ANSWERS: [(&str, &str, Outcome); 47] = [
    (OFTEN_A, "G F a", Outcome::Equal),
    (OFTEN_A, "!G F a", Outcome::Excess),
    (OFTEN_NOT_A, "G F a", Outcome::Excess),
    (OFTEN_NOT_A, "G F !a", Outcome::Equal),
    (EACH_WORD, "G F a", Outcome::Excess),
    (NO_WORD, "G F a", Outcome::Missing),
    (EACH_WORD, "1", Outcome::Equal),
    (EACH_WORD, "0", Outcome::Excess),
    (NO_WORD, "0", Outcome::Equal),
    (NO_WORD, "1", Outcome::Missing),
    (EACH_WORD, "G(a | !a)", Outcome::Equal),
    (AT_LAST_A, "F G a", Outcome::Equal),
    (AT_LAST_NOT_A, "F G a", Outcome::Excess),
    (AT_LAST_A, "G F a", Outcome::Missing),
    (OFTEN_A, "F G a", Outcome::Excess),
    (OFTEN_BOTH, "G F a & G F b", Outcome::Equal),
    (OFTEN_A, "G F a & G F b", Outcome::Excess),
    (OFTEN_BOTH, "G F a", Outcome::Missing),
    (OFTEN_EITHER, "G F a | G F b", Outcome::Equal),
    (OFTEN_EITHER, "G F (a | b)", Outcome::Equal),
    (OFTEN_EITHER, "G F a", Outcome::Excess),
    (OFTEN_A, "G F a | G F b", Outcome::Missing),
    (RESPONSE, "G(p -> F q)", Outcome::Equal),
    (RESPONSE, "G F q | F G !p & G(p -> F q)", Outcome::Equal),
    (RESPONSE_MARKED_TWICE, "G(p -> F q)", Outcome::Equal),
    (RESPONSE_UNMARKED, "G(p -> F q)", Outcome::Missing),
    (RESPONSE_WAITING, "G(p -> F q)", Outcome::Excess),
    (RESPONSE_BEGUN, "G(p -> F q)", Outcome::Missing),
    (RESPONSE_BEGUN, "F q & G(p -> F q)", Outcome::Equal),
    (UNTIL, "a U b", Outcome::Equal),
    (UNTIL_WITHOUT_A, "a U b", Outcome::Excess),
    (UNTIL_WITHOUT_A, "F b", Outcome::Equal),
    (UNTIL_WEAK, "a U b", Outcome::Excess),
    (UNTIL_WEAK, "a W b", Outcome::Equal),
    (UNTIL_AT_ONCE, "a U b", Outcome::Missing),
    (NEXT_A, "X a", Outcome::Equal),
    (NEXT_NOT_A, "X a", Outcome::Excess),
    (NEXT_ANY, "X a", Outcome::Excess),
    (A_AND_NEXT_A, "X a", Outcome::Missing),
    (NEXT_B, "X a", Outcome::Excess),
    (GUESSED_A, "F G a", Outcome::Refused(56)),
    (GUESSED_A, "G F a", Outcome::Refused(56)),
    (GUESSED_A, "G a", Outcome::Excess),
    (TWO_STARTS, "G a", Outcome::Refused(56)),
    (TWO_STARTS, "G !a", Outcome::Excess),
    (BRANCHING, "1", Outcome::Refused(41)),
    (BRANCHING, "0", Outcome::Refused(41)),
];

/// Returns what is answered.
fn outcome_of(answer: Result<FormulaEquality, Refusal>) -> Outcome {
    match answer {
        Ok(FormulaEquality::Equal) => Outcome::Equal,
        Ok(FormulaEquality::Excess(_)) => Outcome::Excess,
        Ok(FormulaEquality::Missing(_)) => Outcome::Missing,
        Err(refusal) => Outcome::Refused(refusal.number()),
    }
}

/// Returns what is answered to the automaton of a text and a formula.
fn outcome_with(alloc: Global, automaton: &str, formula: &Formula) -> Outcome {
    match read_one(alloc, automaton.as_bytes()) {
        Ok(automaton) => outcome_of(decide_formula_equality(alloc, &automaton, formula)),
        Err(refusal) => Outcome::Refused(refusal.number()),
    }
}

/// Returns what is answered to an automaton and a formula as texts.
fn outcome_of_texts(alloc: Global, automaton: &str, formula: &str) -> Outcome {
    match read_formula(alloc, formula.as_bytes()) {
        Ok(formula) => outcome_with(alloc, automaton, &formula),
        Err(refusal) => Outcome::Refused(refusal.number()),
    }
}

#[test]
fn answers_are_those_worked_out_by_hand(rt: HostRuntime) {
    for (row, (automaton, formula, wanted)) in ANSWERS.iter().enumerate() {
        assert_row(
            &rt,
            row,
            outcome_of_texts(rt.alloc(), automaton, formula) == *wanted,
        );
    }
}

/// An automaton, a formula, how many states the judged automaton has, and the number of the refusal, or 0.
static JUDGED: [(&str, &str, u32, u32); 7] = [
    (RESPONSE, "G(p -> F q)", 2, 0),
    (NEXT_A, "X a", 3, 0),
    (RESPONSE_WAITING, "G(p -> F q)", 0, 59),
    (RESPONSE_UNMARKED, "G(p -> F q)", 0, 59),
    (GUESSED_A, "F G a", 0, 59),
    (TWO_STARTS, "G a", 0, 59),
    (BRANCHING, "1", 0, 59),
];

/// Returns the judged automaton of a text.
fn judged_automaton_in(
    alloc: Global,
    automaton: &str,
    formula: &Formula,
) -> Result<Automaton, Refusal> {
    match read_one(alloc, automaton.as_bytes()) {
        Ok(automaton) => judged_automaton(alloc, automaton, formula),
        Err(refusal) => Err(refusal),
    }
}

/// Whether an automaton of so many states was made, or this refusal came.
fn is_made(made: &Result<Automaton, Refusal>, states: u32, number: u32) -> bool {
    match made {
        Ok(automaton) => automaton.state_count() == states && number == 0,
        Err(refusal) => refusal.number() == number,
    }
}

/// Whether the automaton of a text is judged so.
fn is_judged(alloc: Global, automaton: &str, formula: &str, states: u32, number: u32) -> bool {
    match read_formula(alloc, formula.as_bytes()) {
        Ok(formula) => is_made(
            &judged_automaton_in(alloc, automaton, &formula),
            states,
            number,
        ),
        Err(_) => false,
    }
}

#[test]
fn judged_automata_are_returned_or_called_a_fault(rt: HostRuntime) {
    for (row, (automaton, formula, states, number)) in JUDGED.iter().enumerate() {
        let holds = is_judged(rt.alloc(), automaton, formula, *states, *number);
        assert_row(&rt, row, holds);
    }
}
