ghost use Rattle.std.specs.Prelude.{◌≡◌, ◌≤◌, IfOk, IfErr, None};
ghost use Rattle.omega_answers_game.specs.declared.solve.asked.Asked.TheVariants as way;
ghost use Rattle.omega_solve.specs.Limits.{most_lifts};
ghost use Rattle.omega_answers_game.specs.solve.Refusing.{IsSolveGameRefusal};
ghost use Rattle.omega_answers_game.specs.Observing.{CountsReported};
ghost use Rattle.omega_answers_game.specs.private.steps.Lifts.{LiftsWholeGame};
ghost use Rattle.omega_solve.specs.budget.Observing.{IsObserved, refusal_in};

use super::answer_text::write_answer;
use crate::dropping::drop_reordered;
use omega_game::{ForwardGame, Player, Refusal};
use omega_solve::budget::{Reordered, Reporter};
use std::alloc::Global;

/// Returns the answer text of `player` for `game`, and reports the run to `observer`. Fails with [TaskFault::TooWide]
/// or [TaskFault::Budget].
pub fn solve_one<L, W: Reporter<L>>(
    alloc: Global,
    game: &ForwardGame,
    player: Player,
    budget: u64,
    reporter: &W,
    observer: &mut L,
) -> Result<Vec<u8>, Refusal>
    requires { budget ≤ most_lifts }
    ensures answer { IfOk result (λ output. CountsReported (W.tells reporter.now) (W.pace reporter.now)
        game.now (way.Player player) budget output.items observer.old observer.new) }
    ensures refused { IfErr result (IsSolveGameRefusal game.now (way.Player player) None budget) }
    ensures reported { IsObserved (LiftsWholeGame game.now (way.Player player)) (refusal_in result)
        (W.tells reporter.now) (W.pace reporter.now) budget observer.old observer.new }
{
    let reordered = Reordered::of(alloc, game)?;
    let answer = answer_in(alloc, game, &reordered, player, budget, reporter, observer);
    drop_reordered(reordered);
    answer
}

/// Returns the answer text of `player` for `game`, which is lifted in the order of `reordered`. Fails with
/// [TaskFault::TooWide] or [TaskFault::Budget].
fn answer_in<L, W: Reporter<L>>(
    alloc: Global,
    game: &ForwardGame,
    reordered: &Reordered<'_>,
    player: Player,
    budget: u64,
    reporter: &W,
    observer: &mut L,
) -> Result<Vec<u8>, Refusal>
    requires budget { budget ≤ most_lifts }
    requires given { reordered.now.given ≡ game.now }
    ensures answer { IfOk result (λ output. CountsReported (W.tells reporter.now) (W.pace reporter.now)
        game.now (way.Player player) budget output.items observer.old observer.new) }
    ensures refused { IfErr result (IsSolveGameRefusal game.now (way.Player player) None budget) }
    ensures reported { IsObserved (LiftsWholeGame game.now (way.Player player)) (refusal_in result)
        (W.tells reporter.now) (W.pace reporter.now) budget observer.old observer.new }
{
    let found = reordered.solve(alloc, player, budget, reporter, observer)?;
    write_answer(
        alloc,
        game,
        player,
        found.lifts,
        found.won.as_slice(),
        found.choice.as_slice(),
    )
}
