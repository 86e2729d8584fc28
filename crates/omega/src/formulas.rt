ghost use Rattle.omega_answers_formula.specs.Canonical.{IsFormulaTextAnswer};
ghost use Rattle.omega_answers_formula.specs.Deterministic.{IsDeterministicAnswer, IsDeterministicRefusal};
ghost use Rattle.omega_answers_formula.specs.Ltl.{IsLtlAnswer, IsLtlRefusal};
ghost use Rattle.omega_answers_formula.specs.Satisfies.{IsSatisfiesAnswer, IsSatisfiesRefused};
ghost use Rattle.omega_ltl_text.specs.Text.{IsFormulaTextRefusal};
ghost use Rattle.omega.specs.Giving.{IsOneRefused, IsTextOutcome, IsVerdictOutcome};
ghost use Rattle.omega.specs.Solving.{asks};

use crate::giving::{give, give_verdict};
use crate::solving::asks;
use crate::text::Text;
use crate::text_outcome::TextOutcome;
use omega_answers_formula::{canonical_formula, deterministic_text, ltl_text, satisfies_texts};
use std::alloc::Global;

/// Gives the canonical text of the formula of linear temporal logic of `formula`, without a line feed.
///
/// The number of the outcome is 0, or that of the [Refusal::Text] of the text, [AutomatonFault::TooDeep],
/// [TaskFault::TooLarge] or [Refusal::Memory]. Unless it is 0, `out` stays.
#[unsafe(no_mangle)]
pub extern "C" fn omega_formula(alloc: Global, formula: &[u8], out: &mut Text) -> TextOutcome
    ensures { IsTextOutcome (IsFormulaTextAnswer formula.now)
        (IsOneRefused (IsFormulaTextRefusal formula.now)) result out.old out.new }
{
    match canonical_formula(alloc, formula) {
        Ok(output) => give(alloc, output, out),
        Err(refusal) => TextOutcome::of_one(refusal),
    }
}

/// Gives the canonical text of an automaton that accepts exactly the words that satisfy the formula of `formula`, or,
/// with `negated` not 0, exactly those that do not.
///
/// The number of the outcome is 0, or that of the [Refusal::Text] of the text, [AutomatonFault::TooDeep],
/// [TaskFault::TooLarge] or [Refusal::Memory]. Unless it is 0, `out` stays.
#[unsafe(no_mangle)]
pub extern "C" fn omega_ltl(
    alloc: Global,
    formula: &[u8],
    negated: u8,
    out: &mut Text,
) -> TextOutcome
    ensures { IsTextOutcome (IsLtlAnswer formula.now (asks negated))
        (IsOneRefused (IsLtlRefusal formula.now (asks negated))) result out.old out.new }
{
    match ltl_text(alloc, formula, asks(negated)) {
        Ok(output) => give(alloc, output, out),
        Err(refusal) => TextOutcome::of_one(refusal),
    }
}

/// Gives the canonical text of a deterministic automaton, with the acceptance `parity min even`, that accepts exactly
/// the words that satisfy the formula of `formula`. A search finds it, and it is judged before it is given.
///
/// The number of the outcome is 0, or that of the [Refusal::Text] of the text, [AutomatonFault::TooDeep],
/// [TaskFault::TooManyPropositions], [TaskFault::TooLarge], [TaskFault::Unjudged], which is a fault of the library, or
/// [Refusal::Memory]. Unless it is 0, `out` stays.
#[unsafe(no_mangle)]
pub extern "C" fn omega_ltl_deterministic(
    alloc: Global,
    formula: &[u8],
    out: &mut Text,
) -> TextOutcome
    ensures { IsTextOutcome (IsDeterministicAnswer formula.now)
        (IsOneRefused (IsDeterministicRefusal formula.now)) result out.old out.new }
{
    match deterministic_text(alloc, formula) {
        Ok(output) => give(alloc, output, out),
        Err(refusal) => TextOutcome::of_one(refusal),
    }
}

/// Decides whether each word that the automaton of `text` accepts satisfies the formula of `formula`. Writes 1 into
/// `verdict` and gives `yes`, or writes 0 and gives `no`, with `explain` not 0 also the lines of a lasso of the
/// automaton and its word.
///
/// The number of the outcome is 0, or that of the refusal of one of the texts, [TaskFault::UniversalBranch],
/// [TaskFault::TooManyPropositions], [TaskFault::TooLarge] or [Refusal::Memory]. Unless it is 0, `verdict` and `out`
/// stay.
#[unsafe(no_mangle)]
pub extern "C" fn omega_satisfies(
    alloc: Global,
    text: &[u8],
    formula: &[u8],
    explain: u8,
    verdict: &mut u32,
    out: &mut Text,
) -> TextOutcome
    ensures { IsVerdictOutcome (IsSatisfiesAnswer formula.now text.now (asks explain))
        (IsSatisfiesRefused formula.now text.now) result verdict.old verdict.new out.old out.new }
{
    match satisfies_texts(alloc, formula, text, asks(explain)) {
        Ok((exit, output)) => give_verdict(alloc, exit, output, verdict, out),
        Err(refused) => TextOutcome::of(refused),
    }
}
