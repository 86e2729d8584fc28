ghost use Rattle.std.specs.Prelude.{◌≡◌, ◌≤◌, IfErr, IfOk, IsOkUnless, OnOk, length};
ghost use Rattle.omega_game_values.specs.declared.player.Player.TheVariants.{Zero};
ghost use Rattle.omega_solve.specs.Headline.{IsExact};
ghost use Rattle.omega_solve.specs.Limits.{most_lifts};
ghost use Rattle.omega_solve.specs.budget.Observing.{IsObserved, refusal_in};
ghost use Rattle.omega_solve.specs.budget.Within.{IsFound, IsSolvingRefusal};
ghost use Rattle.omega_empty.specs.EmptinessGame.{IsEmptinessGame};
ghost use Rattle.omega_empty.specs.Refusing.{IsGiven};
ghost use Rattle.omega_empty.specs.Deciding.{IsDecidedWithin, IsEmptinessRefusal, IsSolvedWithin};
ghost use Rattle.omega_lang_runs.specs.Verdict.{IsVerdict};
ghost use Rattle.omega_empty.specs.Observing.{LiftsAutomaton};
ghost use Rattle.omega_empty.specs.private.layout.Following.{IsWonStart, lasso_at};
ghost use Rattle.omega_empty.specs.private.layout.Solving.{LiftsGame};

use crate::following::follow_choices;
use crate::game_laws::unwon_is_empty;
use crate::games::emptiness_game;
use crate::starting::won_start;
use omega_game_values::{ForwardGame, Player};
use omega_hoa_automaton::{Automaton, Refusal};
use omega_lang_runs::Verdict;
use omega_solve::budget::{Found, NoObserver, Reordered, Reporter};
use omega_text::Seq;
use std::alloc::Global;

/// Decides whether `automaton` is empty, by lifting in its emptiness game: returns [Verdict::Empty] or an accepting
/// lasso.
///
/// Fails as `emptiness_game` does, or else with [TaskFault::TooWide] if the table of measures would be too wide, or
/// else with [TaskFault::Budget] if `budget` lifts do not suffice.
pub fn emptiness(alloc: Global, automaton: &Automaton, budget: u64) -> Result<Verdict, Refusal>
    requires { budget ≤ most_lifts }
    ensures verdict { IfOk result (IsVerdict automaton.now) }
    ensures given { OnOk result (IsGiven automaton.now) }
    ensures budget { OnOk result (IsDecidedWithin budget automaton.now) }
    ensures refused { IfErr result (IsEmptinessRefusal automaton.now budget) }
{
    emptiness_observed(alloc, automaton, budget, &NoObserver, &mut ())
}

/// Decides emptiness as `emptiness` does, and reports the run to `observer`.
pub fn emptiness_observed<L, W: Reporter<L>>(
    alloc: Global,
    automaton: &Automaton,
    budget: u64,
    reporter: &W,
    observer: &mut L,
) -> Result<Verdict, Refusal>
    requires { budget ≤ most_lifts }
    ensures verdict { IfOk result (IsVerdict automaton.now) }
    ensures given { OnOk result (IsGiven automaton.now) }
    ensures budget { OnOk result (IsDecidedWithin budget automaton.now) }
    ensures refused { IfErr result (IsEmptinessRefusal automaton.now budget) }
    ensures reported { IsObserved (LiftsAutomaton automaton.now) (refusal_in result)
        (W.tells reporter.now) (W.pace reporter.now) budget observer.old observer.new }
{
    let game = emptiness_game(alloc, automaton)?;
    let found = found_in(alloc, &game, budget, reporter, observer)?;
    verdict_of(alloc, automaton, &game, &found)
}

/// Lifts `game` for player 0, returns what is found, and reports the run to `observer`. Fails with
/// [TaskFault::TooWide], or else with [TaskFault::Budget].
fn found_in<L, W: Reporter<L>>(
    alloc: Global,
    game: &ForwardGame,
    budget: u64,
    reporter: &W,
    observer: &mut L,
) -> Result<Found, Refusal>
    requires { budget ≤ most_lifts }
    ensures found { IfOk result (IsFound game.now Zero budget) }
    ensures solved { OnOk result (IsSolvedWithin budget game.now) }
    ensures refused { IfErr result (IsSolvingRefusal game.now Zero budget) }
    ensures reported { IsObserved (LiftsGame game.now) (refusal_in result)
        (W.tells reporter.now) (W.pace reporter.now) budget observer.old observer.new }
{
    let reordered = Reordered::of(alloc, game)?;
    reordered.solve(alloc, Player::Zero, budget, reporter, observer)
}

/// Returns the verdict on `automaton` that `found` gives, an exact answer for player 0 in its emptiness `game`. The
/// lasso begins at the first start that player 0 wins. It follows the choices until a state comes again at the same
/// counter.
pub fn verdict_of(
    alloc: Global,
    automaton: &Automaton,
    game: &ForwardGame,
    found: &Found,
) -> Result<Verdict, Refusal>
    requires game { IsEmptinessGame automaton.now game.now }
    requires exact { IsExact game.now Zero found.now.won.items found.now.choice.items }
    ensures verdict { IfOk result (IsVerdict automaton.now) }
    ensures memory { IsOkUnless result Refusal.Memory }
{
    unwon_is_empty();
    automaton.keeps_limits();
    match won_start(automaton, game, found.won.as_slice()) {
        None => Ok(Verdict::Empty),
        Some(start) => lasso_from(alloc, automaton, game, found, start),
    }
}

/// Returns the lasso that the choices of player 0 make from `start`, the place of a start's node.
fn lasso_from(
    alloc: Global,
    automaton: &Automaton,
    game: &ForwardGame,
    found: &Found,
    start: u32,
) -> Result<Verdict, Refusal>
    requires game { IsEmptinessGame automaton.now game.now }
    requires exact { IsExact game.now Zero found.now.won.items found.now.choice.items }
    requires start { IsWonStart automaton.now game.now found.now.won.items start }
    ensures verdict { IfOk result (IsVerdict automaton.now) }
    ensures memory { IsOkUnless result Refusal.Memory }
{
    let looped = follow_choices(alloc, automaton, game, found, start)?;
    lasso_of(alloc, looped.edges.as_slice(), looped.loop_start)
}

/// Returns the lasso of `edges` whose cycle begins after the first `loop_start` of them.
fn lasso_of(alloc: Global, edges: &[u32], loop_start: usize) -> Result<Verdict, Refusal>
    requires { loop_start ≤ length edges.now }
    ensures lasso { IfOk result (λ verdict. verdict ≡ lasso_at edges.now loop_start) }
    ensures memory { IsOkUnless result Refusal.Memory }
{
    let stem = Vec::from_slice(alloc, &edges[..loop_start])?;
    let cycle = Vec::from_slice(alloc, &edges[loop_start..])?;
    Ok(Verdict::Lasso {
        stem: Seq::from_vec(stem),
        cycle: Seq::from_vec(cycle),
    })
}
