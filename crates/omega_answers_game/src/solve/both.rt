ghost use Rattle.std.specs.Prelude.{◌≡◌, ◌≤◌, IfOk, IfErr, IfSome, IsOk};
ghost use Rattle.std.specs.Prelude.{IsOkUnless, IsTrue, None, false, true};
ghost use Rattle.omega_game_values.specs.Bound.{bound_of};
ghost use Rattle.omega_game_values.specs.Game.{priorities};
ghost use Rattle.omega_measure.specs.Table.{is_too_wide};
ghost use Rattle.omega_text.specs.declared.refusal.task.TaskFault.TheVariants.{TooWide};
ghost use Rattle.omega_game_values.specs.Solution.{IsExactSolution};
ghost use Rattle.omega_answers_game.specs.solve.Refusing.{IsSolveGameRefusal, IsTooWide, IsWideRefusal};
ghost use Rattle.omega_solve.specs.Limits.{most_lifts};
ghost use Rattle.omega_solve.specs.Turns.{IsNarrow};
ghost use Rattle.omega_text.specs.declared.refusal.Refusal.TheVariants.{Task};
ghost use Rattle.omega_answers_game.specs.declared.solve.asked.Asked.TheVariants.{Both};
ghost use Rattle.omega_answers_game.specs.solve.Solution.{IsRight, IsSolutionOf};
ghost use Rattle.omega_answers_game.specs.solve.Winners.{winners_of};
ghost use Rattle.omega_answers_game.specs.private.steps.Bounds.{AreBoundsWithin, IsRightByBounds};
ghost use Rattle.omega_answers_game.specs.private.steps.Lifts.{LiftsWholeGame};
ghost use Rattle.omega_solve.specs.budget.Observing.{IsObserved, refusal_in};

use crate::dropping::drop_reordered;
use omega_game::{ForwardGame, Player, Refusal, Seq, Solution, Strategy, TaskFault};
use omega_game_region_laws::{regions_are_apart, regions_cover};
use omega_lift_bound::bound;
use omega_measure::fits;
use omega_pg::write_solution;
use omega_solve::budget::{Found, Reordered, Reporter, TurnsAnswer};
use std::alloc::Global;

/// Returns the solution text of `game`, by lifting. Fails with [TaskFault::TooWide] or [TaskFault::Budget].
pub fn solve_both<L, W: Reporter<L>>(
    alloc: Global,
    game: &ForwardGame,
    budget: u64,
    reporter: &W,
    observer: &mut L,
) -> Result<Vec<u8>, Refusal>
    requires { budget ≤ most_lifts }
    ensures answer { IfOk result (λ output. IsSolutionOf game.now budget output.items) }
    ensures refused { IfErr result (IsSolveGameRefusal game.now Both None budget) }
    ensures reported { IsObserved (LiftsWholeGame game.now Both) (refusal_in result)
        (W.tells reporter.now) (W.pace reporter.now) budget observer.old observer.new }
{
    let solution = solution_of(alloc, game, budget, reporter, observer)?;
    write_solution(alloc, game, &solution)
}

/// Returns the solution of `game`, by lifting. The tables of both players are judged before either is lifted for, so
/// that [TaskFault::TooWide] comes before [TaskFault::Budget]. The game is reordered once for both players, and each
/// may make the whole budget of lifts.
pub fn solution_of<L, W: Reporter<L>>(
    alloc: Global,
    game: &ForwardGame,
    budget: u64,
    reporter: &W,
    observer: &mut L,
) -> Result<Solution, Refusal>
    requires { budget ≤ most_lifts }
    ensures right { IfOk result (IsRight game.now budget) }
    ensures refused { IfErr result (IsSolveGameRefusal game.now Both None budget) }
    ensures reported { IsObserved (LiftsWholeGame game.now Both) (refusal_in result)
        (W.tells reporter.now) (W.pace reporter.now) budget observer.old observer.new }
{
    fits_both(game)?;
    let reordered = Reordered::of(alloc, game)?;
    let solution = solution_in(alloc, game, &reordered, budget, reporter, observer);
    drop_reordered(reordered);
    solution
}

/// Returns the solution of a game that is too wide for neither player. If the bounds of both players are within
/// `budget` and reports change no observer, the players are lifted for in turns, else one after the other. Fails with
/// [TaskFault::Budget] if the budget does not suffice for one of them.
fn solution_in<L, W: Reporter<L>>(
    alloc: Global,
    game: &ForwardGame,
    reordered: &Reordered<'_>,
    budget: u64,
    reporter: &W,
    observer: &mut L,
) -> Result<Solution, Refusal>
    requires budget { budget ≤ most_lifts }
    requires given { reordered.now.given ≡ game.now }
    requires narrow { IsNarrow game.now }
    ensures right { IfOk result (IsRight game.now budget) }
    ensures refused { IfErr result (IsSolveGameRefusal game.now Both None budget) }
    ensures reported { IsObserved (LiftsWholeGame game.now Both) (refusal_in result)
        (W.tells reporter.now) (W.pace reporter.now) budget observer.old observer.new }
{
    let every = reporter.every();
    let listens = reporter.listens();
    if every > 0 && !listens && are_bounds_within(game, budget) {
        let turned = turned_solution(alloc, game, reordered)?;
        if let Some(solution) = turned {
            return Ok(solution);
        }
    }
    lifted_solution(alloc, game, reordered, budget, reporter, observer)
}

/// Whether the bounds on lifts of both players are within `budget`, so that no run is refused for it.
fn are_bounds_within(game: &ForwardGame, budget: u64) -> bool
    ensures { IsTrue result → AreBoundsWithin game.now budget }
{
    is_bound_within(game, Player::Zero, budget) && is_bound_within(game, Player::One, budget)
}

/// Whether the bound on lifts of `player` is within `budget`.
fn is_bound_within(game: &ForwardGame, player: Player, budget: u64) -> bool
    ensures { IsTrue result → bound_of player (priorities game.now) ≤ budget }
{
    match bound(game, player) {
        Some(lifts) => lifts <= u128::from(budget),
        None => false,
    }
}

/// Returns the solution of `game`, by lifting for both players in turns, whatever the bounds on their lifts. Returns
/// none if the turns do not suffice; no contract says when they do. Fails with [TaskFault::TooWide].
pub fn solution_in_turns(alloc: Global, game: &ForwardGame) -> Result<Option<Solution>, Refusal>
    ensures exact { IfOk result (λ found. IfSome found (IsExactSolution game.now)) }
    ensures narrow { IsOk result → IsNarrow game.now }
    ensures refused { IfErr result (IsWideRefusal game.now Both) }
{
    fits_both(game)?;
    let reordered = Reordered::of(alloc, game)?;
    let turned = turned_solution(alloc, game, &reordered);
    drop_reordered(reordered);
    turned
}

/// Returns the solution of a game that is too wide for neither player, by lifting for both players in turns. It is
/// right for each budget that the bounds of both players are within. Returns none if the turns do not suffice.
fn turned_solution(
    alloc: Global,
    game: &ForwardGame,
    reordered: &Reordered<'_>,
) -> Result<Option<Solution>, Refusal>
    requires given { reordered.now.given ≡ game.now }
    requires narrow { IsNarrow game.now }
    ensures right { IfOk result (λ found. IfSome found (IsRightByBounds game.now)) }
    ensures memory { IsOkUnless result Refusal.Memory }
{
    regions_are_apart();
    regions_cover();
    game.keeps_limits();
    let found = reordered.solve_in_turns(alloc)?;
    match found {
        Some(both) => {
            let solution = solution_of_turns(alloc, both.zero, both.one)?;
            Ok(Some(solution))
        }
        None => Ok(None),
    }
}

/// Returns the solution that the answers of turns for both players make.
fn solution_of_turns(
    alloc: Global,
    zero: TurnsAnswer,
    one: TurnsAnswer,
) -> Result<Solution, Refusal>
    ensures winners { IfOk result (λ solution. solution.winners ≡ winners_of zero.won.items) }
    ensures zero { IfOk result (λ solution. solution.zero.choice ≡ zero.choice.items) }
    ensures one { IfOk result (λ solution. solution.one.choice ≡ one.choice.items) }
    ensures memory { IsOkUnless result Refusal.Memory }
{
    let winners = winners_of(alloc, zero.won.as_slice())?;
    Ok(solution_by(winners, zero.choice, one.choice))
}

/// Returns the solution that the answers of runs for both players make.
fn found_joined(alloc: Global, zero: Found, one: Found) -> Result<Solution, Refusal>
    ensures winners { IfOk result (λ solution. solution.winners ≡ winners_of zero.won.items) }
    ensures zero { IfOk result (λ solution. solution.zero.choice ≡ zero.choice.items) }
    ensures one { IfOk result (λ solution. solution.one.choice ≡ one.choice.items) }
    ensures memory { IsOkUnless result Refusal.Memory }
{
    let winners = winners_of(alloc, zero.won.as_slice())?;
    Ok(solution_by(winners, zero.choice, one.choice))
}

/// Returns the solution of these winners and the choices of both players.
fn solution_by(winners: Vec<Player>, zero: Vec<Option<u32>>, one: Vec<Option<u32>>) -> Solution
    ensures winners { result.winners ≡ winners.items }
    ensures zero { result.zero.choice ≡ zero.items }
    ensures one { result.one.choice ≡ one.items }
{
    Solution {
        winners: Seq::from_vec(winners),
        zero: Strategy {
            choice: Seq::from_vec(zero),
        },
        one: Strategy {
            choice: Seq::from_vec(one),
        },
    }
}

/// Returns the solution of a game that is too wide for neither player, by lifting for one player and then for the
/// other. Fails with [TaskFault::Budget] if the budget does not suffice for one of them.
fn lifted_solution<L, W: Reporter<L>>(
    alloc: Global,
    game: &ForwardGame,
    reordered: &Reordered<'_>,
    budget: u64,
    reporter: &W,
    observer: &mut L,
) -> Result<Solution, Refusal>
    requires budget { budget ≤ most_lifts }
    requires given { reordered.now.given ≡ game.now }
    requires narrow { IsNarrow game.now }
    ensures right { IfOk result (IsRight game.now budget) }
    ensures refused { IfErr result (IsSolveGameRefusal game.now Both None budget) }
    ensures reported { IsObserved (LiftsWholeGame game.now Both) (refusal_in result)
        (W.tells reporter.now) (W.pace reporter.now) budget observer.old observer.new }
{
    regions_are_apart();
    regions_cover();
    game.keeps_limits();
    let zero = reordered.solve(alloc, Player::Zero, budget, reporter, observer)?;
    let one = reordered.solve(alloc, Player::One, budget, reporter, observer)?;
    let solution = found_joined(alloc, zero, one)?;
    Ok(solution)
}

/// Fails with [TaskFault::TooWide] alone, if the game is too wide for either player.
pub fn fits_both(game: &ForwardGame) -> Result<(), Refusal>
    ensures narrow { IsOk result → IsNarrow game.now }
    ensures refused { IfErr result (λ refusal. (refusal ≡ Task TooWide) × IsTooWide game.now Both) }
{
    fits_for(game, Player::Zero)?;
    fits_for(game, Player::One)
}

/// Fails with [TaskFault::TooWide] alone, if the game is too wide for `player`.
fn fits_for(game: &ForwardGame, player: Player) -> Result<(), Refusal>
    ensures narrow { IsOk result → is_too_wide player (priorities game.now) ≡ false }
    ensures refused { IfErr result
        (λ refusal. (refusal ≡ Task TooWide) × (is_too_wide player (priorities game.now) ≡ true)) }
{
    if fits(game, player) {
        Ok(())
    } else {
        Err(Refusal::Task(TaskFault::TooWide))
    }
}

/// Returns the winner of each node: player 0 if `won` says so, else player 1.
pub fn winners_of(alloc: Global, won: &[bool]) -> Result<Vec<Player>, Refusal>
    ensures winners { IfOk result (λ winners. winners.items ≡ winners_of won.now) }
    ensures memory { IsOkUnless result Refusal.Memory }
{
    let mut winners = Vec::with_capacity(alloc, won.len())?;
    for is_won in won {
        winners.push(if *is_won { Player::Zero } else { Player::One })?;
    }
    Ok(winners)
}
