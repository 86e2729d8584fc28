//! Games solved by lifting, over each table and each schedule.
use crate::choices::player_of;
use crate::lists::{numbers, put, put_answer, put_each};
use crate::quiet::runs;
use omega_game::{Game, Player, Refusal};
use omega_solve::{
    MeasureTable, Nested, Outcome, PackedTable, PlainTable, Schedule, Solver, Sweep, Worklist,
};
use std::alloc::Global;

/// Returns what the solver with the table and the schedule that `call` names finds of `game`.
pub(crate) fn of_game(
    alloc: Global,
    call: &str,
    game: &Game,
    other: &[u8],
) -> Result<Vec<u8>, Refusal> {
    match call {
        "plain sweep" => solvers_findings::<PlainTable, Sweep>(alloc, game, other),
        "plain worklist" => solvers_findings::<PlainTable, Worklist>(alloc, game, other),
        "plain nested" => solvers_findings::<PlainTable, Nested>(alloc, game, other),
        "packed sweep" => solvers_findings::<PackedTable, Sweep>(alloc, game, other),
        "packed worklist" => solvers_findings::<PackedTable, Worklist>(alloc, game, other),
        _ => solvers_findings::<PackedTable, Nested>(alloc, game, other),
    }
}

/// Returns what two solvers find, or one of them within the budgets of a text. Of the two, one takes the places in the
/// game's order. All of the text's room is requested before they are made, and neither runs unless the text says so.
fn solvers_findings<T: MeasureTable, S: Schedule>(
    alloc: Global,
    game: &Game,
    other: &[u8],
) -> Result<Vec<u8>, Refusal> {
    if other.is_empty() || runs(other) {
        lifted_by_both::<T, S>(alloc, game, runs(other))
    } else {
        lifted_within::<T, S>(alloc, game, numbers(alloc, other)?.as_slice())
    }
}

fn lifted_by_both<T: MeasureTable, S: Schedule>(
    alloc: Global,
    game: &Game,
    runs: bool,
) -> Result<Vec<u8>, Refusal> {
    let mut out = Vec::with_capacity(alloc, 4096)?;
    lift_in_order::<T, S>(alloc, game, runs, &mut out)?;
    Ok(out)
}

/// Returns what the solver for the player of the first number finds in runs with the other numbers as budgets.
fn lifted_within<T: MeasureTable, S: Schedule>(
    alloc: Global,
    game: &Game,
    numbers: &[u32],
) -> Result<Vec<u8>, Refusal> {
    let Some((number, budgets)) = numbers.split_first() else {
        return Err(Refusal::Io);
    };
    match Solver::<'_, T, S>::prepare(alloc, game, player_of(*number)) {
        Ok(mut solver) => lift_within(alloc, &mut solver, budgets),
        Err(refusal) => Err(refusal),
    }
}

fn lift_within<T: MeasureTable, S: Schedule>(
    alloc: Global,
    solver: &mut Solver<'_, T, S>,
    budgets: &[u32],
) -> Result<Vec<u8>, Refusal> {
    let mut out = Vec::new(alloc);
    put_runs(solver, budgets, &mut out)?;
    Ok(out)
}

fn put_runs<T: MeasureTable, S: Schedule>(
    solver: &mut Solver<'_, T, S>,
    budgets: &[u32],
    out: &mut Vec<u8>,
) -> Result<(), Refusal> {
    put_answer(out, solver.answer().is_some())?;
    for budget in budgets {
        put_run(solver, u64::from(*budget), out)?;
    }
    match solver.answer() {
        Some(answer) => put_found(out, answer.won, answer.choice),
        None => Ok(()),
    }
}

/// Runs a solver. Puts whether it says that it is done, whether it has an answer, its lifts, and its attempts.
fn put_run<T: MeasureTable, S: Schedule>(
    solver: &mut Solver<'_, T, S>,
    budget: u64,
    out: &mut Vec<u8>,
) -> Result<(), Refusal> {
    if budget > solver.room() {
        return Err(Refusal::Io);
    }
    let outcome = solver.run(budget);
    put_answer(out, outcome == Outcome::Done)?;
    put_answer(out, solver.answer().is_some())?;
    put_each(
        out,
        &[u128::from(solver.lifts()), u128::from(solver.attempts())],
    )
}

fn lift_in_order<T: MeasureTable, S: Schedule>(
    alloc: Global,
    game: &Game,
    runs: bool,
    out: &mut Vec<u8>,
) -> Result<(), Refusal> {
    match Solver::<'_, T, S>::prepare_in_order(alloc, game, Player::One) {
        Ok(mut solver) => lift_by_both(alloc, game, &mut solver, runs, out),
        Err(refusal) => Err(refusal),
    }
}

fn lift_by_both<T: MeasureTable, S: Schedule>(
    alloc: Global,
    game: &Game,
    other: &mut Solver<'_, T, S>,
    runs: bool,
    out: &mut Vec<u8>,
) -> Result<(), Refusal> {
    match Solver::<'_, T, S>::prepare(alloc, game, Player::Zero) {
        Ok(mut solver) if runs => run_both(other, &mut solver, out),
        Ok(_) => Ok(()),
        Err(refusal) => Err(refusal),
    }
}

fn run_both<T: MeasureTable, S: Schedule>(
    other: &mut Solver<'_, T, S>,
    solver: &mut Solver<'_, T, S>,
    out: &mut Vec<u8>,
) -> Result<(), Refusal> {
    lift_whole(other, out)?;
    lift_whole(solver, out)
}

/// Runs a solver lift by lift, and puts its lifts, its attempts, and what it finds.
fn lift_whole<T: MeasureTable, S: Schedule>(
    solver: &mut Solver<'_, T, S>,
    out: &mut Vec<u8>,
) -> Result<(), Refusal> {
    for _ in 0..100_000 {
        if solver.room() == 0 || solver.run(1) == Outcome::Done {
            break;
        }
    }
    put_each(
        out,
        &[u128::from(solver.lifts()), u128::from(solver.attempts())],
    )?;
    match solver.answer() {
        Some(answer) => put_found(out, answer.won, answer.choice),
        None => Err(Refusal::Io),
    }
}

fn put_found(out: &mut Vec<u8>, won: &[bool], choices: &[Option<u32>]) -> Result<(), Refusal> {
    for holds in won {
        put_answer(out, *holds)?;
    }
    for choice in choices {
        put(out, u128::from(choice.unwrap_or(u32::MAX)))?;
    }
    Ok(())
}
