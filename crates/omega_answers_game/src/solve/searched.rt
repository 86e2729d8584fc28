ghost use Rattle.std.specs.Prelude.{◌≤◌, IfOk, IfErr, None, OnOk};
ghost use Rattle.omega_solve.specs.Limits.{most_lifts};
ghost use Rattle.omega_answers_game.specs.declared.solve.asked.Asked.TheVariants.{Search};
ghost use Rattle.omega_game_values.specs.Solution.{IsExactSolution};
ghost use Rattle.omega_answers_game.specs.solve.Searching.{IsSearched, MaySearch};
ghost use Rattle.omega_answers_game.specs.solve.Solution.{IsExactSolutionOf};
ghost use Rattle.omega_answers_game.specs.solve.Refusing.{IsSolveGameRefusal};
ghost use Rattle.omega_answers_game.specs.private.steps.Lifts.{LiftsWholeGame};
ghost use Rattle.omega_solve.specs.budget.Observing.{IsObserved, refusal_in};

use super::both::{solution_in_turns, solution_of};
use super::searching::Searching;
use crate::dropping::drop_whole;
use omega_game::{ForwardGame, Game, Refusal, Solution};
use omega_game_search::solve_by;
use omega_pg::write_solution;
use omega_solve::MOST_LIFTS;
use omega_solve::budget::Reporter;
use std::alloc::Global;

/// Returns the solution text of `game`, found by a search as `searching` says, and judged. If the search gives none,
/// the game is solved by lifting: in turns whatever the bounds if `budget` is the most and nobody listens, else with
/// the budget for each player's run. Only then does [TaskFault::TooWide] or [TaskFault::Budget] come. No contract says
/// when the search gives one. The search goes against edges, so the predecessors are listed first.
pub fn solve_by_judged_search<L, W: Reporter<L>>(
    alloc: Global,
    game: ForwardGame,
    searching: &mut Searching,
    budget: u64,
    reporter: &W,
    observer: &mut L,
) -> Result<Vec<u8>, Refusal>
    requires { budget ≤ most_lifts }
    ensures answer { IfOk result (λ output. IsExactSolutionOf game output.items) }
    ensures refused { IfErr result (IsSolveGameRefusal game Search None budget) }
    ensures searched { OnOk result (IsSearched searching.old searching.new) }
    ensures may_search { MaySearch searching.old searching.new }
    ensures reported { IsObserved (LiftsWholeGame game Search) (refusal_in result)
        (W.tells reporter.now) (W.pace reporter.now) budget observer.old observer.new }
{
    let whole = game.with_predecessors(alloc)?;
    let text = searched_text(alloc, &whole, searching, budget, reporter, observer);
    drop_whole(whole);
    text
}

/// Returns the solution text in the same way, for a game with predecessors.
fn searched_text<L, W: Reporter<L>>(
    alloc: Global,
    game: &Game,
    searching: &mut Searching,
    budget: u64,
    reporter: &W,
    observer: &mut L,
) -> Result<Vec<u8>, Refusal>
    requires { budget ≤ most_lifts }
    ensures answer { IfOk result (λ output. IsExactSolutionOf game.now output.items) }
    ensures refused { IfErr result (IsSolveGameRefusal game.now Search None budget) }
    ensures searched { OnOk result (IsSearched searching.old searching.new) }
    ensures may_search { MaySearch searching.old searching.new }
    ensures reported { IsObserved (LiftsWholeGame game.now Search) (refusal_in result)
        (W.tells reporter.now) (W.pace reporter.now) budget observer.old observer.new }
{
    let solution = searched_solution(alloc, game, searching, budget, reporter, observer)?;
    write_solution(alloc, game.forward_game(), &solution)
}

/// Returns the solution of `game`, by the search or else by lifting, and adds the turns of the searchers. Fails with
/// [TaskFault::TooWide] or [TaskFault::Budget].
pub fn searched_solution<L, W: Reporter<L>>(
    alloc: Global,
    game: &Game,
    searching: &mut Searching,
    budget: u64,
    reporter: &W,
    observer: &mut L,
) -> Result<Solution, Refusal>
    requires { budget ≤ most_lifts }
    ensures exact { IfOk result (IsExactSolution game.now) }
    ensures refused { IfErr result (IsSolveGameRefusal game.now Search None budget) }
    ensures searched { OnOk result (IsSearched searching.old searching.new) }
    ensures may_search { MaySearch searching.old searching.new }
    ensures reported { IsObserved (LiftsWholeGame game.now Search) (refusal_in result)
        (W.tells reporter.now) (W.pace reporter.now) budget observer.old observer.new }
{
    let searched = solve_by(alloc, game, searching.alone, searching.effort)?;
    searching.turns = Some(searched.turns);
    match searched.solution {
        Some(solution) => Ok(solution),
        None => lifted_solution(alloc, game.forward_game(), budget, reporter, observer),
    }
}

/// Returns the solution of `game`, by lifting. If `budget` is the most lifts that a solver makes, as where none was
/// asked for, and reports change no observer, then the players are lifted for in turns whatever their bounds, and
/// [TaskFault::Budget] does not come unless the turns do not suffice.
fn lifted_solution<L, W: Reporter<L>>(
    alloc: Global,
    game: &ForwardGame,
    budget: u64,
    reporter: &W,
    observer: &mut L,
) -> Result<Solution, Refusal>
    requires { budget ≤ most_lifts }
    ensures exact { IfOk result (IsExactSolution game.now) }
    ensures refused { IfErr result (IsSolveGameRefusal game.now Search None budget) }
    ensures reported { IsObserved (LiftsWholeGame game.now Search) (refusal_in result)
        (W.tells reporter.now) (W.pace reporter.now) budget observer.old observer.new }
{
    if budget == MOST_LIFTS && !reporter.listens() {
        let turned = solution_in_turns(alloc, game)?;
        if let Some(solution) = turned {
            return Ok(solution);
        }
    }
    solution_of(alloc, game, budget, reporter, observer)
}
