//! Strategies of the environment of a few states as counter-strategies for formulas, judged as worked out by hand.
use super::list_of;
use crate::rows::assert_row;
use omega_hoa::read_one;
use omega_ltl_text::read_formula;
use omega_synth_formula::{
    Formula, FormulaCounterJudgement, Refusal, judge_counter_strategy_for_formula,
};
use omega_text::{ByteString, TaskFault};
use std::alloc::Global;

/// A judgement without the words that show it.
#[derive(Clone, Copy)]
enum Judged {
    Beats,
    NoStart,
    /// A state, and a stem to it.
    NoLetter(u32, &'static [u32]),
    Satisfying,
    Refused(TaskFault),
}

/// A formula, the names that the system controls, an automaton, and the judgement on it.
type Row = (&'static str, &'static [&'static str], &'static str, Judged);

/// A grant says whether a request comes next, which no system knows.
const GUESS: &str = "G(g <-> X r)";

static COUNTER_STRATEGIES: [Row; 12] = [
    // The environment requests exactly if that was not said.
    (
        GUESS,
        &["g"],
        "HOA: v1 States: 4 Start: 0 AP: 2 \"r\" \"g\" Acceptance: 0 t --BODY--
            State: 0 [!0 & 1] 1 [!0 & !1] 2 State: 1 [!0] 3 State: 2 [0] 3
            State: 3 [t] 3 --END--",
        Judged::Beats,
    ),
    // It satisfies the negated formula, so each of its words does not satisfy that one's negation.
    (
        "!G(g <-> X r)",
        &["g"],
        "HOA: v1 States: 4 Start: 0 AP: 2 \"r\" \"g\" Acceptance: 0 t --BODY--
            State: 0 [!0 & 1] 1 [!0 & !1] 2 State: 1 [!0] 3 State: 2 [0] 3
            State: 3 [t] 3 --END--",
        Judged::Satisfying,
    ),
    // One answer of state 0 is not followed.
    (
        GUESS,
        &["g"],
        "HOA: v1 States: 4 Start: 0 AP: 2 \"r\" \"g\" Acceptance: 0 t --BODY--
            State: 0 [!0 & 1] 1 State: 1 [!0] 3 State: 2 [0] 3 State: 3 [t] 3 --END--",
        Judged::NoLetter(0, &[]),
    ),
    // One answer of state 2 is not followed. The states do not come in the order of their numbers.
    (
        GUESS,
        &["g"],
        "HOA: v1 States: 4 Start: 0 AP: 2 \"r\" \"g\" Acceptance: 0 t --BODY--
            State: 3 [t] 3 State: 2 [0 & 1] 3 State: 1 [!0] 3
            State: 0 [!0 & 1] 1 [!0 & !1] 2 --END--",
        Judged::NoLetter(2, &[4]),
    ),
    // The letter of state 0 depends on the answer.
    (
        GUESS,
        &["g"],
        "HOA: v1 States: 4 Start: 0 AP: 2 \"r\" \"g\" Acceptance: 0 t --BODY--
            State: 0 [!0 & 1] 1 [0 & !1] 2 State: 1 [!0] 3 State: 2 [0] 3
            State: 3 [t] 3 --END--",
        Judged::NoLetter(0, &[]),
    ),
    // With `r` for the system too, an answer of state 0 is not followed.
    (
        GUESS,
        &["r", "g"],
        "HOA: v1 States: 4 Start: 0 AP: 2 \"r\" \"g\" Acceptance: 0 t --BODY--
            State: 0 [!0 & 1] 1 [!0 & !1] 2 State: 1 [!0] 3 State: 2 [0] 3
            State: 3 [t] 3 --END--",
        Judged::NoLetter(0, &[]),
    ),
    // State 1 does what was said, and then anything may come.
    (
        GUESS,
        &["g"],
        "HOA: v1 States: 4 Start: 0 AP: 2 \"r\" \"g\" Acceptance: 0 t --BODY--
            State: 0 [!0 & 1] 1 [!0 & !1] 2 State: 1 [0] 3 State: 2 [0] 3
            State: 3 [t] 3 --END--",
        Judged::Satisfying,
    ),
    // Of a conjunction it beats the second part.
    (
        "G(a | !a) & G(g <-> X r)",
        &["g", "a"],
        "HOA: v1 States: 4 Start: 0 AP: 2 \"r\" \"g\" Acceptance: 0 t --BODY--
            State: 0 [!0 & 1] 1 [!0 & !1] 2 State: 1 [!0] 3 State: 2 [0] 3
            State: 3 [t] 3 --END--",
        Judged::Beats,
    ),
    (
        GUESS,
        &["g"],
        "HOA: v1 States: 1 AP: 2 \"r\" \"g\" Acceptance: 0 t --BODY--
            State: 0 [0] 0 --END--",
        Judged::NoStart,
    ),
    (
        GUESS,
        &["g"],
        "HOA: v1 States: 1 Start: 0 AP: 2 \"r\" \"g\" Acceptance: 0 t --BODY--
            State: 0 [0] 0 [0 & 1] 0 --END--",
        Judged::Refused(TaskFault::NotDeterministic(0)),
    ),
    (
        GUESS,
        &["g"],
        "HOA: v1 States: 1 Start: 0 AP: 2 \"r\" \"g\" Acceptance: 1 Fin(0) --BODY--
            State: 0 [0] 0 --END--",
        Judged::Refused(TaskFault::NotParity),
    ),
    (
        GUESS,
        &["g"],
        "HOA: v1 States: 2 Start: 0 & 1 AP: 2 \"r\" \"g\" Acceptance: 0 t --BODY--
            State: 0 [0] 0 State: 1 [0] 1 --END--",
        Judged::Refused(TaskFault::UniversalBranch),
    ),
];

/// Returns the judgement on the automaton of a text as a counter-strategy against a system that controls these names.
fn judgement_for(
    alloc: Global,
    automaton: &str,
    formula: &Formula,
    names: &[ByteString],
) -> Result<FormulaCounterJudgement, Refusal> {
    match read_one(alloc, automaton.as_bytes()) {
        Ok(automaton) => judge_counter_strategy_for_formula(alloc, formula, &automaton, names),
        Err(refusal) => Err(refusal),
    }
}

/// Returns the judgement on the counter-strategy of a row.
fn judgement_on(alloc: Global, row: &Row) -> Result<FormulaCounterJudgement, Refusal> {
    let (formula, controlled, automaton, _) = *row;
    let names = list_of(alloc, controlled)?;
    match read_formula(alloc, formula.as_bytes()) {
        Ok(formula) => judgement_for(alloc, automaton, &formula, names.as_slice()),
        Err(refusal) => Err(refusal),
    }
}

/// Whether this is the judgement.
fn is_judged(made: &Result<FormulaCounterJudgement, Refusal>, judged: Judged) -> bool {
    match (made, judged) {
        (Ok(FormulaCounterJudgement::Beats), Judged::Beats) => true,
        (Ok(FormulaCounterJudgement::NoStart), Judged::NoStart) => true,
        (Ok(FormulaCounterJudgement::NoLetter(letterless)), Judged::NoLetter(state, stem)) => {
            letterless.state == state && letterless.stem.as_slice() == stem
        }
        (Ok(FormulaCounterJudgement::Satisfying(example)), Judged::Satisfying) => {
            example.cycle.len() > 0
        }
        (Err(Refusal::Task(fault)), Judged::Refused(other)) => *fault == other,
        _ => false,
    }
}

#[test]
fn counter_strategies_are_judged(rt: HostRuntime) {
    for (row, strategy) in COUNTER_STRATEGIES.iter().enumerate() {
        let made = judgement_on(rt.alloc(), strategy);
        assert_row(&rt, row, is_judged(&made, strategy.3));
    }
}
