ghost use Rattle.std.specs.Prelude.{◌≡◌, ◌≤◌, IfOk, IfErr, OnOk, Some, None};
ghost use Rattle.omega_answers_game.specs.declared.solve.asked.Asked.TheVariants as way;
ghost use Rattle.omega_solve.specs.Limits.{most_lifts};
ghost use Rattle.omega_text.specs.Cases.{or_memory};
ghost use Rattle.omega_answers_game.specs.solve.Refusing.{IsSolveGameRefusal, IsSolveRefusal};
ghost use Rattle.omega_answers_game.specs.solve.Searching.{IsSearched, MaySearch};
ghost use Rattle.omega_answers_game.specs.solve.Solving.{IsSolveAnswer, SolvesPart, SolvesWhole};
ghost use Rattle.omega_answers_game.specs.Observing.{CountsReported, CountsReportedOfPart};
ghost use Rattle.omega_answers_game.specs.Observing.{CountsReportedOfText, LiftsText};
ghost use Rattle.omega_answers_game.specs.private.steps.Lifts.{LiftsPart, LiftsWholeGame};
ghost use Rattle.omega_solve.specs.budget.Observing.{IsObserved, refusal_in};

mod answer_text;
pub mod asked;
pub mod both;
mod one;
pub(crate) mod searched;
pub mod searching;

use crate::dropping::drop_game;
use crate::part::part_from;
use asked::Asked;
use both::solve_both;
use omega_game::{ForwardGame, Refusal};
use omega_game_region_laws::regions_of_parts;
use omega_pg::read_forward_game;
use omega_solve::budget::Reporter;
use one::solve_one;
use searched::solve_by_judged_search;
use searching::Searching;
use std::alloc::Global;

/// Solves the game of `text` and returns the answer text of a player, or the solution text, as `asked` says. If an
/// identifier `from` is given, solves the part that its node reaches. Where a search is asked for, it goes by
/// `searching`, to which the turns of the searchers are added. Each run is reported to `observer`.
///
/// Fails with the [Refusal::Text] or [Refusal::Game] of the text, or else with [TaskFault::UnknownNode], or else with
/// [TaskFault::TooWide], or else with [TaskFault::Budget].
pub fn solve_game<L, W: Reporter<L>>(
    alloc: Global,
    text: &[u8],
    asked: Asked,
    searching: &mut Searching,
    from: Option<u32>,
    budget: u64,
    reporter: &W,
    observer: &mut L,
) -> Result<Vec<u8>, Refusal>
    requires { budget ≤ most_lifts }
    ensures answer { IfOk result (λ output. IsSolveAnswer text.now asked from budget output.items) }
    ensures refused { IfErr result (or_memory (IsSolveRefusal text.now asked from budget)) }
    ensures searched { OnOk result (asked ≡ way.Search → IsSearched searching.old searching.new) }
    ensures may_search { MaySearch searching.old searching.new }
    ensures reported { IsObserved (LiftsText text.now asked from) (refusal_in result)
        (W.tells reporter.now) (W.pace reporter.now) budget observer.old observer.new }
    ensures counted { IfOk result (λ output. CountsReportedOfText (W.tells reporter.now)
        (W.pace reporter.now) text.now asked from budget output.items observer.old observer.new) }
{
    let game = read_forward_game(alloc, text)?;
    match from {
        None => solve_whole(alloc, game, asked, searching, budget, reporter, observer),
        Some(identifier) => solve_part(
            alloc, game, asked, searching, identifier, budget, reporter, observer,
        ),
    }
}

/// Solves the part of `game` that the node with `identifier` reaches. The game is dropped. Fails with
/// [TaskFault::UnknownNode], or else with [TaskFault::TooWide], or else with [TaskFault::Budget].
fn solve_part<L, W: Reporter<L>>(
    alloc: Global,
    game: ForwardGame,
    asked: Asked,
    searching: &mut Searching,
    identifier: u32,
    budget: u64,
    reporter: &W,
    observer: &mut L,
) -> Result<Vec<u8>, Refusal>
    requires { budget ≤ most_lifts }
    ensures answer { IfOk result (λ output. SolvesPart game asked identifier budget output.items) }
    ensures refused { IfErr result (IsSolveGameRefusal game asked (Some identifier) budget) }
    ensures searched { OnOk result (asked ≡ way.Search → IsSearched searching.old searching.new) }
    ensures may_search { MaySearch searching.old searching.new }
    ensures reported { IsObserved (LiftsPart game asked identifier) (refusal_in result)
        (W.tells reporter.now) (W.pace reporter.now) budget observer.old observer.new }
    ensures counted { IfOk result (λ output. CountsReportedOfPart (W.tells reporter.now)
        (W.pace reporter.now) game asked identifier budget output.items observer.old observer.new) }
{
    regions_of_parts();
    game.keeps_limits();
    let part = part_from(alloc, game, identifier)?;
    solve_whole(alloc, part, asked, searching, budget, reporter, observer)
}

/// Solves a whole game as `asked` says. Fails with [TaskFault::TooWide], or else with [TaskFault::Budget].
fn solve_whole<L, W: Reporter<L>>(
    alloc: Global,
    game: ForwardGame,
    asked: Asked,
    searching: &mut Searching,
    budget: u64,
    reporter: &W,
    observer: &mut L,
) -> Result<Vec<u8>, Refusal>
    requires { budget ≤ most_lifts }
    ensures answer { IfOk result (λ output. SolvesWhole game asked budget output.items) }
    ensures refused { IfErr result (IsSolveGameRefusal game asked None budget) }
    ensures searched { OnOk result (asked ≡ way.Search → IsSearched searching.old searching.new) }
    ensures may_search { MaySearch searching.old searching.new }
    ensures reported { IsObserved (LiftsWholeGame game asked) (refusal_in result)
        (W.tells reporter.now) (W.pace reporter.now) budget observer.old observer.new }
    ensures counted { IfOk result (λ output. CountsReported (W.tells reporter.now)
        (W.pace reporter.now) game asked budget output.items observer.old observer.new) }
{
    match asked {
        Asked::Both => {
            let solved = solve_both(alloc, &game, budget, reporter, observer);
            drop_game(game);
            solved
        }
        Asked::Search => {
            solve_by_judged_search(alloc, game, searching, budget, reporter, observer)
        }
        Asked::Player(player) => {
            let solved = solve_one(alloc, &game, player, budget, reporter, observer);
            drop_game(game);
            solved
        }
    }
}
