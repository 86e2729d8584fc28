//! The judge of counter-strategies: the letters first, and then the words.

ghost use Rattle.std.specs.Prelude.{◌≡◌, IfErr, IfOk, OnOk, false};
ghost use Rattle.omega_hoa_automaton.specs.Branching.{has_universal_branching};
ghost use Rattle.omega_ltl_satisfaction.specs.SatisfyingWords.{AreSatisfyingWords};
ghost use Rattle.omega_synth_formula.specs.CounterJudging.{IsFormulaCounterJudgement};
ghost use Rattle.omega_synth_formula.specs.CounterRefusing.{IsCounterReadable, IsFormulaCounterRefusal};
ghost use Rattle.omega_synth_formula.specs.Following.{IsLetterlessFound};

use crate::counter::{FormulaCounterJudgement, LetterlessState};
use crate::letterless::letterless_state;
use omega_hoa_automaton::{Automaton, Refusal};
use omega_ltl_formula::Formula;
use omega_ltl_satisfaction::{Intersection, satisfying_words};
use omega_synth_check::judge_form;
use omega_text::ByteString;
use std::alloc::Global;

/// Returns whether `strategy` is a counter-strategy for `formula`, or why it is none: a strategy of the environment
/// against which no system satisfies the formula. The system controls the propositions whose names are `controlled`,
/// and the environment all others. A proposition of `strategy` and one of `formula` that have one name are the same
/// (HOA v1, AP). A name of `formula` that `strategy` does not have is open at each index of a word that it accepts.
///
/// The strategy is to be deterministic. In each state that it reaches the environment is to have a letter such that the
/// strategy goes on whatever the system answers. A start that is missing comes before a letter that is missing, and
/// that before a word that satisfies the formula.
///
/// Refusals, the first of these steps that has one, whatever the answer is:
///
/// - [TaskFault::UniversalBranch] if a start or an edge of `strategy` lists several states.
/// - [TaskFault::NotParity] unless its acceptance has no sets and is `t`, by whatever name.
/// - Those of `complement` for `strategy`, such as [TaskFault::NotDeterministic] with the number of a state.
/// - [TaskFault::TooManyPropositions] or [TaskFault::TooLarge] if it is not decided whether an edge of a state that is
///   reached can be taken, or whether the edge of the complement from there to its sink answers a letter, or if the
///   label of that edge mentions over `MOST_MENTIONED` propositions of the environment.
/// - Those of `satisfying_words` for `strategy` and `formula`: the same two.
///
/// For each state that is reached up to `2^m` letters are tried for `m` propositions of the environment that the
/// letters mention at which the state does not go on. Takes the time of `satisfying_words` too.
pub fn judge_counter_strategy_for_formula(
    alloc: Global,
    formula: &Formula,
    strategy: &Automaton,
    controlled: &[ByteString],
) -> Result<FormulaCounterJudgement, Refusal>
    ensures right { IfOk result
        (IsFormulaCounterJudgement formula.now strategy.now controlled.now) }
    ensures given { OnOk result (IsCounterReadable strategy.now) }
    ensures refused { IfErr result
        (IsFormulaCounterRefusal formula.now strategy.now controlled.now) }
{
    judge_form(strategy)?;
    let letterless = letterless_state(alloc, strategy, controlled)?;
    let words = satisfying_words(alloc, strategy, formula)?;
    Ok(counter_judgement_of(formula, strategy, controlled, letterless, words))
}

/// Returns the judgement on `strategy`, by the state without a letter that was found, and by its words that satisfy the
/// formula.
fn counter_judgement_of(
    _formula: &Formula,
    strategy: &Automaton,
    _controlled: &[ByteString],
    letterless: Option<LetterlessState>,
    words: Intersection,
) -> FormulaCounterJudgement
    requires plain { has_universal_branching strategy.now ≡ false }
    requires letterless { IsLetterlessFound strategy.now _controlled.now letterless }
    requires words { AreSatisfyingWords strategy.now _formula.now words }
    ensures { IsFormulaCounterJudgement _formula.now strategy.now _controlled.now result }
{
    strategy.keeps_limits();
    if strategy.starts().len() == 0 {
        return FormulaCounterJudgement::NoStart;
    }
    match letterless {
        Some(state) => FormulaCounterJudgement::NoLetter(state),
        None => match words {
            Intersection::Common(example) => FormulaCounterJudgement::Satisfying(example),
            Intersection::Empty => FormulaCounterJudgement::Beats,
        },
    }
}
