//! Laws of the definitions that the calls of `Reordered` cite.
ghost use Rattle.omega_solve.specs.budget.Laws.{AnswersAreOfSolvers};
ghost use Rattle.omega_solve.specs.budget.Laws.{SpentBudgetsAreBelowTheBound, HeadlineByPlace};
ghost use Rattle.omega_solve.specs.budget.Laws.{ReorderingsKeepBounds, ReorderingsKeepStates};

use crate::headline;
use omega_lift_laws::runs_are_bounded;

/// States the headline of the program, for each order in which a game may be solved and each way to deal out the
/// budget. A solver makes at most as many lifts as the bound of the original game, and budgets that together reach it
/// suffice. The answer by original place is exactly the player's region, with one strategy that wins from all of it
/// (Jurdziński 2000).
pub fn headline_by_place()
    ensures { HeadlineByPlace }
{
    headline();
}

/// States that what `Reordered::solve` finds within a budget is the answer of a solver to which the whole budget is
/// dealt out at once. So the headline holds of it.
pub fn answers_are_of_solvers()
    ensures { AnswersAreOfSolvers }
{}

/// States that a budget refused with [TaskFault::Budget] is below the bound.
pub fn spent_budgets_are_below_the_bound()
    ensures { SpentBudgetsAreBelowTheBound }
{
    runs_are_bounded();
}

/// States that a run of a solver for the reordered game, read by place, is a lifting run of the original game with the
/// same number of lifts.
pub fn reorderings_keep_states()
    ensures { ReorderingsKeepStates }
{}

/// States that the bound on lifts is the same in the reordered game.
pub fn reorderings_keep_bounds()
    ensures { ReorderingsKeepBounds }
{}
