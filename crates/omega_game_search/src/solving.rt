ghost use Rattle.std.specs.Prelude.{◌≡◌, ◌↔◌, IfOk, IfSome, IsOkUnless, IsSome, IsTrue, IsFalse};
ghost use Rattle.omega_game_values.specs.Solution.{IsExactSolution};
ghost use Rattle.omega_game_search.specs.declared.turns.Turn.TheVariants.{Untaken};
ghost use Rattle.omega_game_search.specs.Turns.{AreTurns, has_found, is_asked};

use crate::judging::winning_solution;
use crate::turns::{Searched, Turn, Turns};
use crate::{Searcher, search};
use omega_game::{Game, Refusal, Solution};
use std::alloc::Global;

/// Returns an exact solution of `game`: each node is given to the player in whose region it is, and each player's
/// strategy wins from all of that region. Returns none if the search gives up or its suggestion is not accepted.
///
/// Two searchers take turns on a game of n nodes and m edges. The first is Zielonka's recursive algorithm with
/// attractors (Zielonka 1998), which takes exponential time at worst. It may visit about 16 · (n + m) edges, which
/// suffices for most games. The second is tangle learning (van Dijk 2018), whose time may be exponential too. It may
/// visit about 10,000,000 + 4,000 · (n + m) edges, at most 4,000,000,000, and store 64 · (n + m) words of 4 bytes. It
/// gives up on some random games of 540,000 nodes, each of another priority.
///
/// With its answer a searcher suggests an order of the places, by which the answer is judged in time n + m. A second
/// run gives the same result.
pub fn solve_by_search(alloc: Global, game: &Game) -> Result<Option<Solution>, Refusal>
    ensures exact { IfOk result (λ found. IfSome found (IsExactSolution game.now)) }
    ensures memory { IsOkUnless result Refusal.Memory }
{
    let searched = solve_by(alloc, game, None, 1)?;
    Ok(searched.solution)
}

/// Solves `game` as [`solve_by_search`] does, but each searcher may visit `effort` times as many edges. If one is to
/// search `alone`, then the other takes no turn. Also returns how the turn of each ended. A greater effort does not
/// help tangle learning if it stored all the words that it may.
pub fn solve_by(
    alloc: Global,
    game: &Game,
    alone: Option<Searcher>,
    effort: u64,
) -> Result<Searched, Refusal>
    ensures exact { IfOk result
        (λ searched. IfSome searched.solution (IsExactSolution game.now)) }
    ensures turns { IfOk result (λ searched. AreTurns alone searched.solution searched.turns) }
    ensures memory { IsOkUnless result Refusal.Memory }
{
    let first = turn_of(alloc, game, Searcher::Zielonka, alone, effort)?;
    if first.solution.is_some() {
        return Ok(Searched {
            solution: first.solution,
            turns: Turns {
                zielonka: first.turn,
                tangles: Turn::Untaken,
            },
        });
    }
    let second = turn_of(alloc, game, Searcher::Tangles, alone, effort)?;
    Ok(Searched {
        solution: second.solution,
        turns: Turns {
            zielonka: first.turn,
            tangles: second.turn,
        },
    })
}

/// What one searcher came to.
#[derive(Drop)]
struct TakenTurn {
    solution: Option<Solution>,
    turn: Turn,
}

/// Lets `searcher` take a turn, unless another one is to search alone.
fn turn_of(
    alloc: Global,
    game: &Game,
    searcher: Searcher,
    alone: Option<Searcher>,
    effort: u64,
) -> Result<TakenTurn, Refusal>
    ensures exact { IfOk result (λ taken. IfSome taken.solution (IsExactSolution game.now)) }
    ensures found { IfOk result (λ taken. IsSome taken.solution ↔ IsTrue (has_found taken.turn)) }
    ensures untaken { IfOk result
        (λ taken. (taken.turn ≡ Untaken) ↔ IsFalse (is_asked alone searcher)) }
    ensures memory { IsOkUnless result Refusal.Memory }
{
    if !is_asked_for(alone, searcher) {
        return Ok(TakenTurn {
            solution: None,
            turn: Turn::Untaken,
        });
    }
    let finding = search(alloc, game, searcher, searcher.fuel(game, effort))?;
    let edges = finding.edges;
    let suggestion = match finding.suggestion {
        Some(suggestion) => suggestion,
        None => {
            return Ok(TakenTurn {
                solution: None,
                turn: Turn::GaveUp { edges },
            });
        }
    };
    let solution = winning_solution(alloc, game, suggestion)?;
    let turn = if solution.is_some() {
        Turn::Found { edges }
    } else {
        Turn::Rejected { edges }
    };
    Ok(TakenTurn { solution, turn })
}

/// Whether `searcher` is to take a turn.
fn is_asked_for(alone: Option<Searcher>, searcher: Searcher) -> bool
    ensures { result ≡ is_asked alone searcher }
{
    match alone {
        None => true,
        Some(Searcher::Zielonka) => matches!(searcher, Searcher::Zielonka),
        Some(Searcher::Tangles) => matches!(searcher, Searcher::Tangles),
    }
}
