ghost use Rattle.std.specs.Prelude.{◌≡◌, ◌≤◌, false, IfOk, IfErr, IsOk, IsOkUnless};
ghost use Rattle.omega_game_values.specs.Game.{priorities};
ghost use Rattle.omega_measure.specs.Table.{is_too_wide};
ghost use Rattle.omega_solve.specs.Limits.{most_lifts};
ghost use Rattle.omega_solve.specs.Solver.{start_of};
ghost use Rattle.omega_solve.specs.budget.Observing.{ReportsFound, ReportsSolving};
ghost use Rattle.omega_solve.specs.budget.Within.{IsFound, IsSolvingRefusal};
ghost use Rattle.omega_solve.specs.budget.private.steps.Refusing.{IsBudgetRefusal};

use crate::budget::found::Found;
use crate::budget::laws::{reorderings_keep_bounds, reorderings_keep_states};
use crate::budget::observing::Reporter;
use crate::budget::reordered::Reordered;
use crate::budget::running::{most_lifts_of, run_observed};
use crate::{MeasureTable, Nested, Outcome, PackedTable, Schedule, Solver};
use omega_game_values::{Player, Refusal, TaskFault};
use std::alloc::Global;

impl Reordered<'_> {
    /// Solves the game for `player` by lifting within `budget`, and returns the answer by original place. The run is
    /// reported to `observer`. The table of measures is dropped at the end. Fails with [TaskFault::TooWide] if the
    /// table would be too wide, and with [TaskFault::Budget] if a lift is due when the whole budget is used up.
    pub fn solve<L, W: Reporter<L>>(
        &self,
        alloc: Global,
        player: Player,
        budget: u64,
        reporter: &W,
        observer: &mut L,
    ) -> Result<Found, Refusal>
        requires { budget ≤ most_lifts }
        ensures found { IfOk result (IsFound self.now.given player budget) }
        ensures fits { IsOk result → is_too_wide player (priorities self.now.given) ≡ false }
        ensures refused { IfErr result (IsSolvingRefusal self.now.given player budget) }
        ensures reported { ReportsSolving (W.tells reporter.now) (W.pace reporter.now)
            self.now.given player budget result observer.old observer.new }
    {
        let solver: Solver<'_, PackedTable, Nested> = self.prepare(alloc, player)?;
        self.found_observed(alloc, solver, player, budget, reporter, observer)
    }

    /// Runs a new `solver` for `player` within `budget`, and returns its answer by original place. The run is reported
    /// to `observer`. Fails with [TaskFault::Budget] if the budget does not suffice.
    fn found_observed<T: MeasureTable, S: Schedule, L, W: Reporter<L>>(
        &self,
        alloc: Global,
        mut solver: Solver<'_, T, S>,
        player: Player,
        budget: u64,
        reporter: &W,
        observer: &mut L,
    ) -> Result<Found, Refusal>
        requires fresh { solver ≡ start_of self.now.reordered player }
        requires budget { budget ≤ most_lifts }
        ensures found { IfOk result (IsFound self.now.given player budget) }
        ensures refused { IfErr result (IsBudgetRefusal self.now.given player budget) }
        ensures reported { ReportsFound (W.tells reporter.now) (W.pace reporter.now)
            self.now.given player budget result observer.old observer.new }
    {
        reorderings_keep_states();
        reorderings_keep_bounds();
        self.keeps_nodes();
        let most = most_lifts_of(self.original_game(), player, budget);
        let game = self.reordered_game();
        match run_observed(&mut solver, game, player, most, budget, reporter, observer) {
            Outcome::Spent => Err(Refusal::Task(TaskFault::Budget)),
            Outcome::Done => self.found_by(alloc, &solver),
        }
    }
}
