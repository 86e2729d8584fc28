//! Runs a solver whose budget is dealt out in slices, so that an observer hears how far it has come.
ghost use Rattle.std.specs.Prelude.{◌≡◌, ◌≤◌};
ghost use Rattle.omega_solve.specs.budget.Observing.{IsReported, most_of};
ghost use Rattle.omega_solve.specs.budget.private.steps.Lifting.{HasLifted};
ghost use Rattle.omega_solve.specs.Limits.{most_lifts};
ghost use Rattle.omega_solve.specs.Solver.{start_of};

use crate::budget::observing::{Progress, Reporter};
use crate::{MeasureTable, Outcome, Schedule, Solver};
use omega_game_values::{ForwardGame, Game, Player};
use omega_lift_bound::bound;

/// Runs a new `solver` for `game` and `player` within `budget`. Reports to `observer` after each `reporter.every()`
/// lifts if a lift is still due. `most` is the number of lifts that the reports give as the most.
pub(crate) fn run_observed<T: MeasureTable, S: Schedule, L, W: Reporter<L>>(
    solver: &mut Solver<'_, T, S>,
    game: &Game,
    player: Player,
    most: u64,
    budget: u64,
    reporter: &W,
    observer: &mut L,
) -> Outcome
    requires fresh { solver.old ≡ start_of game.now player }
    requires budget { budget ≤ most_lifts }
    ensures lifted { HasLifted game.now player budget result solver.new }
    ensures reported { IsReported (W.tells reporter.now) player (W.pace reporter.now) most
        result solver.new.lifts observer.old observer.new }
{
    let every = reporter.every();
    let mut made = 0;
    while every <= budget - made {
        match solver.run(every) {
            Outcome::Done => return Outcome::Done,
            Outcome::Spent => made += every,
        }
        let progress = Progress {
            player,
            lifts: made,
            most,
        };
        reporter.report(observer, progress);
    }
    solver.run(budget - made)
}

/// Returns the most lifts of a run: the bound of `game` for `player` or, if it is less, `budget`.
pub(crate) fn most_lifts_of(game: &ForwardGame, player: Player, budget: u64) -> u64
    ensures { result ≡ most_of game.now player budget }
{
    match bound(game, player) {
        Some(lifts) if lifts < u128::from(budget) => lifts as u64,
        _ => budget,
    }
}
