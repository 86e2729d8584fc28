//! The judge of counter-strategies: the letters first, and then the words.

ghost use Rattle.std.specs.Prelude.{◌≡◌, IfErr, IfOk, OnOk, false};
ghost use Rattle.omega_hoa_automaton.specs.Branching.{has_universal_branching};
ghost use Rattle.omega_hoa_edges.specs.Determinism.{IsDeterministic};
ghost use Rattle.omega_lang_intersection.specs.Intersection.{IsIntersection};
ghost use Rattle.omega_synth_check.specs.CounterJudging.{IsCounterJudgement};
ghost use Rattle.omega_synth_check.specs.CounterRefusing.{AreCounterJudged, IsCounterRefusal, IsUndetermined};
ghost use Rattle.omega_synth_check.specs.private.Letterless.{IsLetterlessFound};

use crate::counter_judgement::{CounterJudgement, LetterlessPair};
use crate::letterless::letterless_pair;
use crate::reading::judge_form;
use omega_hoa_automaton::{Automaton, Refusal, has_universal_branching};
use omega_hoa_edges::{check_deterministic_states, check_one_start};
use omega_lang_intersection::{Intersection, intersection};
use omega_text::{ByteString, TaskFault};
use std::alloc::Global;

/// Checks that `specification` is deterministic, as it has to be for counter-strategies.
///
/// Fails with [TaskFault::UniversalBranch] if a start or an edge lists several states, with
/// [TaskFault::NotDeterministic] with the state of a second start, or else as `check_deterministic_states` does.
pub fn check_specification(alloc: Global, specification: &Automaton) -> Result<(), Refusal>
    ensures deterministic { OnOk result (IsDeterministic specification.now) }
    ensures refused { IfErr result (IsUndetermined specification.now) }
{
    if has_universal_branching(specification) {
        return Err(Refusal::Task(TaskFault::UniversalBranch));
    }
    check_one_start(specification)?;
    check_deterministic_states(alloc, specification)
}

/// Returns whether `strategy` is a counter-strategy for `specification`, which is deterministic, or why it is none. The
/// system controls the propositions whose names are `controlled`, and the environment all others. Propositions that
/// have one name are the same in both automata, whatever their numbers are (HOA v1, AP).
///
/// The strategy is to be deterministic. It need go on only where the specification does. A start that is missing comes
/// before a letter that is missing, and that before a common word.
///
/// Refusals, the first of these steps that has one, whatever the answer is:
///
/// - [TaskFault::UniversalBranch] if a start or an edge of `strategy` lists several states.
/// - [TaskFault::NotParity] unless its acceptance has no sets and is `t`, by whatever name.
/// - Those of `complement` for `strategy`, such as [TaskFault::NotDeterministic] with the number of a state.
/// - Those of `product` for `specification` and this complement.
/// - [TaskFault::TooManyPropositions] or [TaskFault::TooLarge] if it is not decided whether an edge of this product can
///   be taken or answers a letter, or if the labels of one of its states mention over `MOST_MENTIONED` propositions of
///   the environment.
/// - Those of `pair_graph` for `strategy` and `specification`.
///
/// For each state of the product up to `2^m` letters are tried for `m` propositions of the environment that the labels
/// of its edges mention.
pub fn judge_counter_strategy(
    alloc: Global,
    specification: &Automaton,
    strategy: &Automaton,
    controlled: &[ByteString],
) -> Result<CounterJudgement, Refusal>
    requires { IsDeterministic specification.now }
    ensures right { IfOk result (IsCounterJudgement specification.now strategy.now controlled.now) }
    ensures given { OnOk result (AreCounterJudged specification.now strategy.now) }
    ensures refused { IfErr result (IsCounterRefusal specification.now strategy.now controlled.now) }
{
    judge_form(strategy)?;
    let letterless = letterless_pair(alloc, specification, strategy, controlled)?;
    let common = intersection(alloc, strategy, specification)?;
    Ok(counter_judgement_of(specification, strategy, controlled, letterless, common))
}

/// Returns the judgement on `strategy`, by the pair without a letter that was found, and by the words that it has in
/// common with the specification.
fn counter_judgement_of(
    specification: &Automaton,
    strategy: &Automaton,
    _controlled: &[ByteString],
    letterless: Option<LetterlessPair>,
    common: Intersection,
) -> CounterJudgement
    requires specified { has_universal_branching specification.now ≡ false }
    requires plain { has_universal_branching strategy.now ≡ false }
    requires letterless { IsLetterlessFound specification.now strategy.now _controlled.now letterless }
    requires common { IsIntersection strategy.now specification.now common }
    ensures { IsCounterJudgement specification.now strategy.now _controlled.now result }
{
    specification.keeps_limits();
    strategy.keeps_limits();
    if strategy.starts().len() == 0 && specification.starts().len() > 0 {
        return CounterJudgement::NoStart;
    }
    match letterless {
        Some(pair) => CounterJudgement::NoLetter(pair),
        None => match common {
            Intersection::Common(example) => CounterJudgement::Common(example),
            Intersection::Empty => CounterJudgement::Beats,
        },
    }
}
