//! Whether an automaton is realizable, in one line.

ghost use Rattle.std.specs.Prelude.{◌≡◌, ◌≤◌, IfErr, IfOk, IsOkUnless};
ghost use Rattle.omega_solve.specs.budget.Observing.{IsObserved, refusal_in};
ghost use Rattle.omega_solve.specs.Limits.{most_lifts};
ghost use Rattle.omega_text.specs.Cases.{or_memory};
ghost use Rattle.omega_answers_synth.specs.Decide.{IsDecision, IsDecisionAnswer};
ghost use Rattle.omega_answers_synth.specs.Observing.{IsLiftedDecisionAnswer, LiftsText, winner_told};
ghost use Rattle.omega_synth_realize.specs.Realizing.{winner_in};
ghost use Rattle.omega_answers_synth.specs.Refusing.{IsRealizeRefusal};
ghost use Rattle.omega_answers_synth.specs.private.Decided.{IsDecidedRightly};

use crate::decided::{Decided, decided_by_lifting, decided_in};
use omega_hoa_automaton::Refusal;
use omega_io::Exit;
use omega_solve::budget::Reporter;
use omega_synth_realize::Realizability;
use std::alloc::Global;

/// Decides whether the automaton of `text` is realizable where the system controls the propositions that its item
/// `controllable-AP:` lists. Returns `realizable` with [Exit::Done], or `unrealizable` with [Exit::No].
///
/// Fails with the [Refusal::Text] or [Refusal::Automaton] of the text, or else with [TaskFault::Controllable], or else
/// as `realize` does.
pub fn decide_realizability(alloc: Global, text: &[u8]) -> Result<(Exit, Vec<u8>), Refusal>
    ensures answer { IfOk result (λ made. IsDecisionAnswer text.now made.0 made.1.items) }
    ensures refused { IfErr result (or_memory (IsRealizeRefusal text.now most_lifts)) }
{
    let decided = decided_in(alloc, text)?;
    verdict_of(alloc, &decided)
}

/// Decides as [decide_realizability] does, by lifting within `budget`, which ends where there is an answer. The runs
/// are reported to `observer`.
///
/// Fails with the [Refusal::Text] or [Refusal::Automaton] of the text, or else with [TaskFault::Controllable], or else
/// as `realize_by_lifting` does.
pub fn decide_realizability_by_lifting<L, W: Reporter<L>>(
    alloc: Global,
    text: &[u8],
    budget: u64,
    reporter: &W,
    observer: &mut L,
) -> Result<(Exit, Vec<u8>), Refusal>
    requires { budget ≤ most_lifts }
    ensures answer { IfOk result
        (λ made. IsLiftedDecisionAnswer text.now budget made.0 made.1.items) }
    ensures refused { IfErr result (or_memory (IsRealizeRefusal text.now budget)) }
    ensures reported { IsObserved (LiftsText text.now) (refusal_in result)
        (W.tells reporter.now) (W.pace reporter.now) budget observer.old observer.new }
{
    let decided = decided_by_lifting(alloc, text, budget, reporter, observer)?;
    verdict_of(alloc, &decided)
}

/// Returns the line that tells what was `decided`.
fn verdict_of(alloc: Global, decided: &Decided) -> Result<(Exit, Vec<u8>), Refusal>
    requires { IsDecidedRightly decided.now }
    ensures decision { IfOk result
        (λ made. IsDecision decided.now.question.automaton made.0 made.1.items) }
    ensures told { IfOk result (λ made. winner_told made.0 ≡ winner_in decided.now.realizability) }
    ensures memory { IsOkUnless result Refusal.Memory }
{
    match &decided.realizability {
        Realizability::Realizable { .. } => {
            Ok((Exit::Done, Vec::from_slice(alloc, b"realizable\n")?))
        }
        Realizability::Unrealizable { .. } => {
            Ok((Exit::No, Vec::from_slice(alloc, b"unrealizable\n")?))
        }
    }
}
