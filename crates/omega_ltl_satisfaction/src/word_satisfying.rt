//! Satisfaction by each word that a symbolic word admits, by the automaton of the word.

ghost use Rattle.std.specs.Prelude.{IfErr, IfOk};
ghost use Rattle.omega_hoa_automaton.specs.Automaton.{Description};
ghost use Rattle.omega_lang_inclusion.specs.Written.{IsWordAutomaton};
ghost use Rattle.omega_lang_lasso_word.specs.declared.symbolic_word.SymbolicWord.{SymbolicWord};
ghost use Rattle.omega_ltl_formula.specs.Table.{NumberedFormula};
ghost use Rattle.omega_ltl_satisfaction.specs.Satisfaction.{IsSatisfaction};
ghost use Rattle.omega_ltl_satisfaction.specs.WordSatisfaction.{IsWordSatisfaction};
ghost use Rattle.omega_ltl_satisfaction.specs.WordRefusing.{IsWordSatisfactionRefusal};

use crate::satisfaction::Satisfaction;
use crate::satisfying::satisfies;
use crate::word_satisfaction::WordSatisfaction;
use omega_hoa_automaton::{Automaton, Refusal};
use omega_lang_inclusion::word_automaton;
use omega_lang_lasso_word::SymbolicWord;
use omega_ltl_formula::Formula;
use std::alloc::Global;

/// Returns whether each word that `word` admits satisfies `formula`. If not, returns words that `word` admits and that
/// do not satisfy it. A name of `word` and one of `formula` that are the same are one proposition.
///
/// If no word is admitted, as by the letter `a & !a`, the answer is [WordSatisfaction::Satisfied].
///
/// Fails with [TaskFault::TooLarge] as `word_automaton` does, or else as [satisfies] does for the automaton of `word`,
/// which has no universal branching: with [TaskFault::TooLarge] or [TaskFault::TooManyPropositions]. Takes the time of
/// these calls.
pub fn word_satisfies(
    alloc: Global,
    word: SymbolicWord,
    formula: &Formula,
) -> Result<WordSatisfaction, Refusal>
    ensures right { IfOk result (IsWordSatisfaction word formula.now) }
    ensures refused { IfErr result (IsWordSatisfactionRefusal word formula.now) }
{
    match word_automaton(alloc, word) {
        Ok(one) => satisfaction_of_automaton(alloc, &one, formula),
        Err(refusal) => Err(refusal),
    }
}

/// Returns what [word_satisfies] returns for each word of which `one` is the automaton.
fn satisfaction_of_automaton(
    alloc: Global,
    one: &Automaton,
    formula: &Formula,
) -> Result<WordSatisfaction, Refusal>
    ensures right { IfOk result (λ answer. (word : SymbolicWord) →
        IsWordAutomaton word one.now → IsWordSatisfaction word formula.now answer) }
    ensures refused { IfErr result (λ refusal. (word : SymbolicWord) →
        IsWordAutomaton word one.now → IsWordSatisfactionRefusal word formula.now refusal) }
{
    match satisfies(alloc, one, formula) {
        Ok(answer) => Ok(word_satisfaction_of(answer)),
        Err(refusal) => Err(refusal),
    }
}

/// Returns what the answer for the automaton of a symbolic word says of the words that are admitted.
fn word_satisfaction_of(answer: Satisfaction) -> WordSatisfaction
    ensures { (word : SymbolicWord) (one : Description) (formula : NumberedFormula) → IsWordAutomaton word one
        → IsSatisfaction one formula answer → IsWordSatisfaction word formula result }
{
    match answer {
        Satisfaction::Satisfied => WordSatisfaction::Satisfied,
        Satisfaction::NotSatisfied(example) => WordSatisfaction::NotSatisfied(example.word),
    }
}
