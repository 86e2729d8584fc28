//! The winner's automaton: a controller or a counter-strategy.

ghost use Rattle.std.specs.Prelude.{◌≡◌, ◌≤◌, false, IfErr, IfOk, IsOkUnless};
ghost use Rattle.omega_hoa_automaton.specs.Branching.{has_universal_branching};
ghost use Rattle.omega_solve.specs.budget.Observing.{IsObserved, refusal_in};
ghost use Rattle.omega_solve.specs.Limits.{most_lifts};
ghost use Rattle.omega_text.specs.Cases.{or_memory};
ghost use Rattle.omega_answers_synth.specs.Observing.{IsLiftedWinnerAnswer, LiftsText, winner_told};
ghost use Rattle.omega_answers_synth.specs.Refusing.{IsRealizeRefusal};
ghost use Rattle.omega_synth_realize.specs.Realizing.{IsRealizability, winner_in};
ghost use Rattle.omega_answers_synth.specs.Winner.{IsWinner, IsWinnerAnswer, IsWinning};
ghost use Rattle.omega_answers_synth.specs.private.Decided.{IsDecidedRightly};

use crate::decided::{Decided, decided_by_lifting, decided_in};
use omega_hoa_automaton::{Automaton, Refusal};
use omega_io::Exit;
use omega_solve::budget::Reporter;
use omega_synth_realize::Realizability;
use omega_synth_text::{controller_text, counter_strategy_text};
use std::alloc::Global;

/// Decides as `decide_realizability` does, and returns the canonical text of the winner's automaton: a controller with
/// [Exit::Done], or a counter-strategy with [Exit::No]. Fails as `decide_realizability` does.
pub fn write_winner(alloc: Global, text: &[u8]) -> Result<(Exit, Vec<u8>), Refusal>
    ensures answer { IfOk result (λ made. IsWinnerAnswer text.now made.0 made.1.items) }
    ensures refused { IfErr result (or_memory (IsRealizeRefusal text.now most_lifts)) }
{
    let decided = decided_in(alloc, text)?;
    winner_of(alloc, &decided)
}

/// Returns the winner's automaton as [write_winner] does, by lifting within `budget`. The runs are reported to
/// `observer`. Fails as `decide_realizability_by_lifting` does.
pub fn write_winner_by_lifting<L, W: Reporter<L>>(
    alloc: Global,
    text: &[u8],
    budget: u64,
    reporter: &W,
    observer: &mut L,
) -> Result<(Exit, Vec<u8>), Refusal>
    requires { budget ≤ most_lifts }
    ensures answer { IfOk result
        (λ made. IsLiftedWinnerAnswer text.now budget made.0 made.1.items) }
    ensures refused { IfErr result (or_memory (IsRealizeRefusal text.now budget)) }
    ensures reported { IsObserved (LiftsText text.now) (refusal_in result)
        (W.tells reporter.now) (W.pace reporter.now) budget observer.old observer.new }
{
    let decided = decided_by_lifting(alloc, text, budget, reporter, observer)?;
    winner_of(alloc, &decided)
}

/// Returns the automaton of the winner of what was `decided`.
fn winner_of(alloc: Global, decided: &Decided) -> Result<(Exit, Vec<u8>), Refusal>
    requires { IsDecidedRightly decided.now }
    ensures winning { IfOk result
        (λ made. IsWinning decided.now.question.automaton made.0 made.1.items) }
    ensures told { IfOk result (λ made. winner_told made.0 ≡ winner_in decided.now.realizability) }
    ensures memory { IsOkUnless result Refusal.Memory }
{
    winner_text(
        alloc,
        &decided.question.automaton,
        decided.question.controlled.as_slice(),
        &decided.realizability,
    )
}

/// Returns who wins `automaton`, where the system controls the propositions with the numbers `controlled`, and the
/// canonical text of the automaton of the winner that was found.
pub(crate) fn winner_text(
    alloc: Global,
    automaton: &Automaton,
    controlled: &[u32],
    found: &Realizability,
) -> Result<(Exit, Vec<u8>), Refusal>
    requires plain { has_universal_branching automaton.now ≡ false }
    requires right { IsRealizability automaton.now controlled.now found.now }
    ensures winner { IfOk result (λ made. IsWinner automaton.now controlled.now made.0 made.1.items) }
    ensures told { IfOk result (λ made. winner_told made.0 ≡ winner_in found.now) }
    ensures memory { IsOkUnless result Refusal.Memory }
{
    match found {
        Realizability::Realizable { kept } => {
            let text = controller_text(alloc, automaton, controlled, kept.as_slice())?;
            Ok((Exit::Done, text))
        }
        Realizability::Unrealizable { kept, letters } => {
            let kept = kept.as_slice();
            let letters = letters.as_slice();
            let text = counter_strategy_text(alloc, automaton, controlled, kept, letters)?;
            Ok((Exit::No, text))
        }
    }
}
