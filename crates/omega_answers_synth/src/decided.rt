//! The question whether an automaton is realizable, and what was decided.

ghost use Rattle.std.specs.Prelude.{◌≤◌, IfErr, IfOk};
ghost use Rattle.omega_solve.specs.budget.Observing.{IsObserved, refusal_in};
ghost use Rattle.omega_solve.specs.Limits.{most_lifts};
ghost use Rattle.omega_synth_realize.specs.Lifting.{IsAnswerLifted};
ghost use Rattle.omega_text.specs.Cases.{or_memory};
ghost use Rattle.omega_answers_synth.specs.Observing.{LiftsText};
ghost use Rattle.omega_answers_synth.specs.Refusing.{IsRealizeRefusal};
ghost use Rattle.omega_answers_synth.specs.private.Decided.{IsDecidedText};

use crate::question::{Question, question_in};
use omega_hoa_automaton::Refusal;
use omega_solve::budget::Reporter;
use omega_synth_realize::{Realizability, realize, realize_by_lifting};
use std::alloc::Global;

/// A question, and whether its automaton is realizable where the system controls its propositions.
#[derive(Drop)]
pub(crate) struct Decided {
    pub(crate) question: Question,
    pub(crate) realizability: Realizability,
}

/// Decides the question of `text`. Fails as `decide_realizability` does.
pub(crate) fn decided_in(alloc: Global, text: &[u8]) -> Result<Decided, Refusal>
    ensures decided { IfOk result (IsDecidedText text.now) }
    ensures refused { IfErr result (or_memory (IsRealizeRefusal text.now most_lifts)) }
{
    let question = question_in(alloc, text)?;
    let controlled = question.controlled.as_slice();
    let realizability = realize(alloc, &question.automaton, controlled)?;
    Ok(Decided {
        question,
        realizability,
    })
}

/// Decides the question of `text` by lifting within `budget`. The runs are reported to `observer`. Fails as
/// `decide_realizability_by_lifting` does.
pub(crate) fn decided_by_lifting<L, W: Reporter<L>>(
    alloc: Global,
    text: &[u8],
    budget: u64,
    reporter: &W,
    observer: &mut L,
) -> Result<Decided, Refusal>
    requires { budget ≤ most_lifts }
    ensures decided { IfOk result (IsDecidedText text.now) }
    ensures lifted { IfOk result (λ found. IsAnswerLifted found.question.automaton
        found.question.controlled budget found.realizability) }
    ensures refused { IfErr result (or_memory (IsRealizeRefusal text.now budget)) }
    ensures reported { IsObserved (LiftsText text.now) (refusal_in result)
        (W.tells reporter.now) (W.pace reporter.now) budget observer.old observer.new }
{
    let question = question_in(alloc, text)?;
    let automaton = &question.automaton;
    let controlled = question.controlled.as_slice();
    let realizability = realize_by_lifting(
        alloc, automaton, controlled, budget, reporter, observer,
    )?;
    Ok(Decided {
        question,
        realizability,
    })
}
