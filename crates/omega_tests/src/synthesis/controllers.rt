//! Arbiters of a few states as controllers for formulas, judged as worked out by hand.
use crate::rows::assert_row;
use omega_hoa::read_one;
use omega_ltl_text::read_formula;
use omega_synth_formula::{Formula, FormulaJudgement, Refusal, judge_for_formula};
use omega_text::TaskFault;
use std::alloc::Global;

/// A judgement without the words that show it.
#[derive(Clone, Copy)]
enum Judged {
    Controls,
    NoStart,
    /// A state, the letter that it does not answer, and a stem to it.
    Unanswered(u32, &'static [u32], &'static [u32]),
    NotSatisfied,
    Refused(TaskFault),
}

/// A formula, the propositions that the system controls, an automaton, and the judgement on it.
type Row = (&'static str, &'static [u32], &'static str, Judged);

/// Each request is granted at some time, and no two grants come at once.
const ARBITER: &str = "G(r0 -> F g0) & G(r1 -> F g1) & G !(g0 & g1)";

static CONTROLLERS: [Row; 13] = [
    // Grants in turns.
    (
        ARBITER,
        &[2, 3],
        "HOA: v1 States: 2 Start: 0 AP: 4 \"r0\" \"r1\" \"g0\" \"g1\" Acceptance: 0 t --BODY--
            State: 0 [2 & !3] 1 State: 1 [!2 & 3] 0 --END--",
        Judged::Controls,
    ),
    // The same, request by request.
    (
        ARBITER,
        &[2, 3],
        "HOA: v1 States: 2 Start: 0 AP: 4 \"r0\" \"r1\" \"g0\" \"g1\" Acceptance: 0 t --BODY--
            State: 0 [0 & 2 & !3] 1 [!0 & 2 & !3] 1
            State: 1 [1 & !2 & 3] 0 [!1 & !2 & 3] 0 --END--",
        Judged::Controls,
    ),
    // The same without its last edge: state 1, which edge 0 enters, does not answer that `r1` does not hold.
    (
        ARBITER,
        &[2, 3],
        "HOA: v1 States: 2 Start: 0 AP: 4 \"r0\" \"r1\" \"g0\" \"g1\" Acceptance: 0 t --BODY--
            State: 0 [0 & 2 & !3] 1 [!0 & 2 & !3] 1 State: 1 [1 & !2 & 3] 0 --END--",
        Judged::Unanswered(1, &[], &[0]),
    ),
    // The same without its first edge: state 0 does not answer that `r0` holds.
    (
        ARBITER,
        &[2, 3],
        "HOA: v1 States: 2 Start: 0 AP: 4 \"r0\" \"r1\" \"g0\" \"g1\" Acceptance: 0 t --BODY--
            State: 0 [!0 & 2 & !3] 1
            State: 1 [1 & !2 & 3] 0 [!1 & !2 & 3] 0 --END--",
        Judged::Unanswered(0, &[0], &[]),
    ),
    // The same with `r0` for the system, which then always requests.
    (
        ARBITER,
        &[0, 2, 3],
        "HOA: v1 States: 2 Start: 0 AP: 4 \"r0\" \"r1\" \"g0\" \"g1\" Acceptance: 0 t --BODY--
            State: 0 [!0 & 2 & !3] 1
            State: 1 [1 & !2 & 3] 0 [!1 & !2 & 3] 0 --END--",
        Judged::Controls,
    ),
    // Both grants at once: the last conjunct.
    (
        ARBITER,
        &[2, 3],
        "HOA: v1 States: 1 Start: 0 AP: 4 \"r0\" \"r1\" \"g0\" \"g1\" Acceptance: 0 t --BODY--
            State: 0 [2 & 3] 0 --END--",
        Judged::NotSatisfied,
    ),
    // No second grant: the second conjunct.
    (
        ARBITER,
        &[2, 3],
        "HOA: v1 States: 1 Start: 0 AP: 4 \"r0\" \"r1\" \"g0\" \"g1\" Acceptance: 0 t --BODY--
            State: 0 [2 & !3] 0 --END--",
        Judged::NotSatisfied,
    ),
    // No first grant: the first conjunct.
    (
        ARBITER,
        &[2, 3],
        "HOA: v1 States: 1 Start: 0 AP: 4 \"r0\" \"r1\" \"g0\" \"g1\" Acceptance: 0 t --BODY--
            State: 0 [!2 & 3] 0 --END--",
        Judged::NotSatisfied,
    ),
    // Both grants at once, and a letter that is not answered, which comes first.
    (
        ARBITER,
        &[2, 3],
        "HOA: v1 States: 1 Start: 0 AP: 4 \"r0\" \"r1\" \"g0\" \"g1\" Acceptance: 0 t --BODY--
            State: 0 [1 & 2 & 3] 0 --END--",
        Judged::Unanswered(0, &[], &[]),
    ),
    // A choice, one of whose words does not satisfy the formula.
    (
        ARBITER,
        &[2, 3],
        "HOA: v1 States: 2 Start: 0 AP: 4 \"r0\" \"r1\" \"g0\" \"g1\" Acceptance: 0 t --BODY--
            State: 0 [2 & !3] 1 [2 & !3] 0 State: 1 [!2 & 3] 0 --END--",
        Judged::NotSatisfied,
    ),
    // A name of the formula that the automaton does not have is open.
    (
        "G(r -> g)",
        &[0],
        "HOA: v1 States: 1 Start: 0 AP: 1 \"g\" Acceptance: 0 t --BODY--
            State: 0 [0] 0 --END--",
        Judged::Controls,
    ),
    (
        ARBITER,
        &[2, 3],
        "HOA: v1 States: 1 AP: 4 \"r0\" \"r1\" \"g0\" \"g1\" Acceptance: 0 t --BODY--
            State: 0 [2 & 3] 0 --END--",
        Judged::NoStart,
    ),
    (
        ARBITER,
        &[2, 3],
        "HOA: v1 States: 1 Start: 0 AP: 4 \"r0\" \"r1\" \"g0\" \"g1\"
            Acceptance: 1 Inf(0) --BODY-- State: 0 [2 & 3] 0 {0} --END--",
        Judged::Refused(TaskFault::NotParity),
    ),
];

/// Returns the judgement on the controller of a row for its formula.
fn judgement_for(alloc: Global, row: &Row, formula: &Formula) -> Result<FormulaJudgement, Refusal> {
    let (_, controlled, automaton, _) = *row;
    match read_one(alloc, automaton.as_bytes()) {
        Ok(automaton) => judge_for_formula(alloc, formula, &automaton, controlled),
        Err(refusal) => Err(refusal),
    }
}

/// Returns the judgement on the controller of a row.
fn judgement_on(alloc: Global, row: &Row) -> Result<FormulaJudgement, Refusal> {
    match read_formula(alloc, row.0.as_bytes()) {
        Ok(formula) => judgement_for(alloc, row, &formula),
        Err(refusal) => Err(refusal),
    }
}

/// Whether this is the judgement.
fn is_judged(made: &Result<FormulaJudgement, Refusal>, judged: Judged) -> bool {
    match (made, judged) {
        (Ok(FormulaJudgement::Controls), Judged::Controls) => true,
        (Ok(FormulaJudgement::NoStart), Judged::NoStart) => true,
        (Ok(FormulaJudgement::Unanswered(lack)), Judged::Unanswered(state, letter, stem)) => {
            lack.state == state && lack.letter.as_slice() == letter && lack.stem.as_slice() == stem
        }
        (Ok(FormulaJudgement::NotSatisfied(example)), Judged::NotSatisfied) => {
            example.cycle.len() > 0
        }
        (Err(Refusal::Task(fault)), Judged::Refused(other)) => *fault == other,
        _ => false,
    }
}

#[test]
fn controllers_are_judged(rt: HostRuntime) {
    for (row, controller) in CONTROLLERS.iter().enumerate() {
        let made = judgement_on(rt.alloc(), controller);
        assert_row(&rt, row, is_judged(&made, controller.3));
    }
}
