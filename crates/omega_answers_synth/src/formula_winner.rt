//! The winner's automaton for a formula: a controller or a counter-strategy.

ghost use Rattle.std.specs.Prelude.{IfErr, IfOk, IfSome, IsOkUnless};
ghost use Rattle.omega_text.specs.Cases.{or_memory};
ghost use Rattle.omega_ltl_deterministic.specs.Candidate.{IsCandidate};
ghost use Rattle.omega_answers_synth.specs.FormulaRefusing.{IsFormulaRealizeRefusal, IsNotWon, RefusesWinner};
ghost use Rattle.omega_answers_synth.specs.FormulaWinner.{IsFormulaWinner, IsFormulaWinnerAnswer};
ghost use Rattle.omega_answers_synth.specs.FormulaWinner.{IsNamedWinner, IsProposedWinner};
ghost use Rattle.omega_answers_synth.specs.Outputs.{lists_of};

use crate::formula_judged::check_winner;
use crate::given_names::GivenNames;
use crate::outputs::outputs_of;
use crate::own_faults::{unjudged_for_form, unread_for_size};
use crate::winner::winner_text;
use omega_hoa::read_one;
use omega_hoa_automaton::{Automaton, Refusal};
use omega_io::Exit;
use omega_ltl_deterministic::{complete_candidate, smaller_candidate};
use omega_ltl_formula::Formula;
use omega_ltl_text::read_formula;
use omega_synth_check::numbers_named;
use omega_synth_realize::realize;
use omega_text::ByteString;
use std::alloc::Global;

/// Decides as `decide_formula_realizability` does, and returns the canonical text of the winner's automaton: a
/// controller with [Exit::Done], or a counter-strategy with [Exit::No]. The text is read back, and the automaton judged
/// as `verify_formula_controller` and `verify_formula_counter_strategy` judge it. Equal states are joined where that is
/// judged too.
///
/// Fails as `decide_formula_realizability` does.
pub fn write_formula_winner(
    alloc: Global,
    formula: &[u8],
    names: GivenNames<'_>,
) -> Result<(Exit, Vec<u8>), Refusal>
    ensures answer { IfOk result
        (λ made. IsFormulaWinnerAnswer formula.now (lists_of names.entry) made.0 made.1.items) }
    ensures refused { IfErr result
        (or_memory (IsFormulaRealizeRefusal formula.now (lists_of names.entry))) }
{
    let read = read_formula(alloc, formula)?;
    named_winner(alloc, &read, names)
}

/// Returns the winner's automaton for `formula` and the names that are given. Fails as [write_formula_winner] does
/// after the formula is read.
fn named_winner(
    alloc: Global,
    formula: &Formula,
    names: GivenNames<'_>,
) -> Result<(Exit, Vec<u8>), Refusal>
    ensures winner { IfOk result
        (λ made. IsNamedWinner formula.now (lists_of names.entry) made.0 made.1.items) }
    ensures refused { IfErr result (or_memory (RefusesWinner formula.now (lists_of names.entry))) }
{
    let outs = outputs_of(alloc, formula, names)?;
    formula_winner(alloc, formula, outs.as_slice())
}

/// Returns the winner's automaton for `formula` and its outputs: a smaller one than that of a deterministic automaton
/// that is proposed for the formula, if one is found and judged, or else that one. Fails as [write_formula_winner] does
/// after the outputs are known.
fn formula_winner(
    alloc: Global,
    formula: &Formula,
    outs: &[ByteString],
) -> Result<(Exit, Vec<u8>), Refusal>
    ensures winner { IfOk result (λ made. IsFormulaWinner formula.now outs.now made.0 made.1.items) }
    ensures refused { IfErr result (IsNotWon formula.now outs.now) }
{
    let candidate = complete_candidate(alloc, formula)?;
    let (exit, text) = proposed_winner(alloc, formula, outs, &candidate)?;
    match smaller_winner(alloc, formula, outs, exit, text.as_slice())? {
        Some(won) => Ok(won),
        None => judged_winner(alloc, formula, outs, exit, text),
    }
}

/// Returns a smaller winner than that of `text`, whose exit status is `exit`: with fewer states, or as many and fewer
/// edges. Each of its runs is to be one of the other, which are joined where they are equal. Returns none if none is
/// found or judged. Fails only for refused memory.
fn smaller_winner(
    alloc: Global,
    formula: &Formula,
    outs: &[ByteString],
    exit: Exit,
    text: &[u8],
) -> Result<Option<(Exit, Vec<u8>)>, Refusal>
    ensures winner { IfOk result
        (λ found. IfSome found (λ made. IsFormulaWinner formula.now outs.now made.0 made.1.items)) }
    ensures memory { IsOkUnless result Refusal.Memory }
{
    match winner_without_equal_states(alloc, formula, outs, exit, text) {
        Ok(found) => Ok(found),
        Err(Refusal::Memory) => Err(Refusal::Memory),
        // The winner of `text` stays.
        Err(_) => Ok(None),
    }
}

/// Returns a winner as [smaller_winner] does, but fails if a step to it does.
fn winner_without_equal_states(
    alloc: Global,
    formula: &Formula,
    outs: &[ByteString],
    exit: Exit,
    text: &[u8],
) -> Result<Option<(Exit, Vec<u8>)>, Refusal>
    ensures winner { IfOk result
        (λ found. IfSome found (λ made. IsFormulaWinner formula.now outs.now made.0 made.1.items)) }
{
    let winner = read_one(alloc, text)?;
    let rejects = match exit {
        Exit::Done => false,
        Exit::No => true,
    };
    winner.keeps_limits();
    let controlled = numbers_named(alloc, winner.propositions(), outs)?;
    let candidate = smaller_candidate(
        alloc,
        &winner,
        formula.names(),
        controlled.as_slice(),
        rejects,
    )?;
    let (smaller_exit, smaller) = proposed_winner(alloc, formula, outs, &candidate)?;
    if !is_smaller(alloc, smaller.as_slice(), &winner)? {
        return Ok(None);
    }
    let won = judged_winner(alloc, formula, outs, smaller_exit, smaller)?;
    Ok(Some(won))
}

/// Whether the automaton of a text has fewer states than another, or as many and fewer edges. Fails as [read_one] does.
fn is_smaller(alloc: Global, text: &[u8], other: &Automaton) -> Result<bool, Refusal> {
    let automaton = read_one(alloc, text)?;
    let (states, most) = (automaton.state_count(), other.state_count());
    Ok(states < most || (states == most && automaton.edge_count() < other.edge_count()))
}

/// Returns the text of the winner of `candidate`, where the system controls `outs`. Fails as `realize` does, but with
/// [TaskFault::Unjudged] for its form.
fn proposed_winner(
    alloc: Global,
    _formula: &Formula,
    outs: &[ByteString],
    candidate: &Automaton,
) -> Result<(Exit, Vec<u8>), Refusal>
    requires { IsCandidate _formula.now.table.names candidate.now }
    ensures proposed { IfOk result
        (λ made. IsProposedWinner _formula.now outs.now made.0 made.1.items) }
    ensures refused { IfErr result (IsNotWon _formula.now outs.now) }
{
    candidate.keeps_limits();
    let controlled = numbers_named(alloc, candidate.propositions(), outs)?;
    let numbers = controlled.as_slice();
    match realize(alloc, candidate, numbers) {
        Ok(decided) => {
            let won = winner_text(alloc, candidate, numbers, &decided)?;
            Ok(won)
        }
        Err(refusal) => Err(unjudged_for_form(refusal)),
    }
}

/// Returns `text`, if it is read as an automaton that is judged to be the winner that `exit` says. Fails with
/// [TaskFault::TooLarge] if the text or its labels are too large, or else as [check_winner] does.
fn judged_winner(
    alloc: Global,
    formula: &Formula,
    outs: &[ByteString],
    exit: Exit,
    text: Vec<u8>,
) -> Result<(Exit, Vec<u8>), Refusal>
    requires { IsProposedWinner formula.now outs.now exit text.items }
    ensures winner { IfOk result (λ made. IsFormulaWinner formula.now outs.now made.0 made.1.items) }
    ensures refused { IfErr result (IsNotWon formula.now outs.now) }
{
    match read_one(alloc, text.as_slice()) {
        Ok(winner) => match check_winner(alloc, formula, outs, exit, &winner) {
            Ok(()) => Ok((exit, text)),
            Err(refusal) => Err(refusal),
        },
        Err(refusal) => Err(unread_for_size(refusal)),
    }
}
