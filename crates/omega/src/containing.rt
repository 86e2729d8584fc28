ghost use Rattle.omega_answers_inclusion.specs.Contained.{IsContainedAnswer, IsContainedRefused};
ghost use Rattle.omega_answers_inclusion.specs.Equal.{IsEqualAnswer, IsEqualRefused};
ghost use Rattle.omega.specs.Giving.{IsVerdictOutcome};
ghost use Rattle.omega.specs.Solving.{asks};

use crate::giving::give_verdict;
use crate::solving::asks;
use crate::text::Text;
use crate::text_outcome::TextOutcome;
use omega_answers_inclusion::{contained_texts, equal_texts};
use std::alloc::Global;

/// Decides whether each word that the automaton of `text` accepts is accepted, in its part, by the automaton of
/// `other`, which is to be deterministic. Writes 1 into `verdict` and gives `yes`, or writes 0 and gives `no`, with
/// `explain` not 0 also the lines of a lasso of the first and its word.
///
/// The number of the outcome is 0, or that of the [Refusal::Text] or [Refusal::Automaton] of one of the texts,
/// [TaskFault::NotDeterministic] of `other`, [TaskFault::UniversalBranch], [TaskFault::TooManyPropositions],
/// [TaskFault::TooLarge] or [Refusal::Memory]. Unless it is 0, `verdict` and `out` stay.
#[unsafe(no_mangle)]
pub extern "C" fn omega_contained(
    alloc: Global,
    text: &[u8],
    other: &[u8],
    explain: u8,
    verdict: &mut u32,
    out: &mut Text,
) -> TextOutcome
    ensures { IsVerdictOutcome (IsContainedAnswer other.now text.now (asks explain))
        (IsContainedRefused other.now text.now) result verdict.old verdict.new out.old out.new }
{
    match contained_texts(alloc, other, text, asks(explain)) {
        Ok((exit, output)) => give_verdict(alloc, exit, output, verdict, out),
        Err(refused) => TextOutcome::of(refused),
    }
}

/// Decides whether the automata of `text` and of `other`, both deterministic, accept the same words. Writes 1 into
/// `verdict` and gives `yes`, or writes 0 and gives `no`. With `explain` not 0 it also gives which of the two accepts a
/// word that the other does not, the lines of its lasso, and the word.
///
/// The number of the outcome is as that of [omega_contained], each way round. Unless it is 0, `verdict` and `out` stay.
#[unsafe(no_mangle)]
pub extern "C" fn omega_equal(
    alloc: Global,
    text: &[u8],
    other: &[u8],
    explain: u8,
    verdict: &mut u32,
    out: &mut Text,
) -> TextOutcome
    ensures { IsVerdictOutcome (IsEqualAnswer other.now text.now (asks explain))
        (IsEqualRefused other.now text.now) result verdict.old verdict.new out.old out.new }
{
    match equal_texts(alloc, other, text, asks(explain)) {
        Ok((exit, output)) => give_verdict(alloc, exit, output, verdict, out),
        Err(refused) => TextOutcome::of(refused),
    }
}
