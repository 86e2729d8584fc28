//! Solutions of a game and strategies in it: read, judged, written.
ghost use Rattle.std.specs.Prelude.{◌<◌, length, All, IsTrue};
ghost use Rattle.omega_game_values.specs.Solution.{IsSolution};

use crate::choices;
use crate::lists::{answer, put_all, put_answer};
use omega_game::{
    Game, Lasso, MOST_NUMBER, Player, Refusal, Solution, Strategy, check_solution_by_order,
    check_strategy, check_strategy_by_order, check_strategy_fast, counterexample,
};
use omega_pg::{read_solution, write_solution};
use std::alloc::Global;

/// Returns what a call gives of a game and the solution of a text, or the choices of a player in a text of numbers.
pub(crate) fn of_game(
    alloc: Global,
    call: &str,
    game: &Game,
    text: &[u8],
) -> Result<Vec<u8>, Refusal> {
    if text.starts_with(b"0") || text.starts_with(b"1") {
        return choices::of_text(alloc, call, game, text);
    }
    match read_solution(alloc, game.forward_game(), text) {
        Ok(solution) => of_solution(alloc, call, game, &solution),
        Err(refusal) => Err(refusal),
    }
}

fn of_solution(
    alloc: Global,
    call: &str,
    game: &Game,
    solution: &Solution,
) -> Result<Vec<u8>, Refusal>
    requires { IsSolution game.now solution.now }
{
    match call {
        "read_solution" => write_solution(alloc, game.forward_game(), solution),
        "check_solution_by_order" => judged_by_order(alloc, game, solution, &[2, 1, 0]),
        "by rising order" => judged_by_order(alloc, game, solution, &[0, 1, 2]),
        "by first place" => judged_by_order(alloc, game, solution, &[0]),
        _ => choices_verdict(alloc, call, game, solution),
    }
}

/// Whether an order of places shows that both players' choices win.
fn judged_by_order(
    alloc: Global,
    game: &Game,
    solution: &Solution,
    order: &[u32],
) -> Result<Vec<u8>, Refusal> {
    let fit = solution.zero.fits(game.forward_game(), Player::Zero)
        && solution.one.fits(game.forward_game(), Player::One);
    if solution.winners.len() != game.len() || !fit {
        return Err(Refusal::Io);
    }
    answer(
        alloc,
        check_solution_by_order(alloc, game.forward_game(), solution, order)?,
    )
}

/// Returns what a call gives of both players' choices.
fn choices_verdict(
    alloc: Global,
    call: &str,
    game: &Game,
    solution: &Solution,
) -> Result<Vec<u8>, Refusal> {
    let mut out = Vec::new(alloc);
    judge(alloc, call, game, solution, Player::Zero, &mut out)?;
    judge(alloc, call, game, solution, Player::One, &mut out)?;
    Ok(out)
}

fn judge(
    alloc: Global,
    call: &str,
    game: &Game,
    solution: &Solution,
    player: Player,
    out: &mut Vec<u8>,
) -> Result<(), Refusal> {
    if solution.winners.len() > MOST_NUMBER as usize {
        return Err(Refusal::Io);
    }
    let places = solution.places_given(alloc, player)?;
    let (given, strategy) = (places.as_slice(), solution.strategy(player));
    put_judged(alloc, call, game, player, given, given, strategy, out)
}

/// Puts what a call gives of the places from which a player's choices are to win, and of an order of places.
pub(crate) fn put_judged(
    alloc: Global,
    call: &str,
    game: &Game,
    player: Player,
    given: &[u32],
    order: &[u32],
    strategy: &Strategy,
    out: &mut Vec<u8>,
) -> Result<(), Refusal> {
    if !are_places(game, given) || !strategy.fits(game.forward_game(), player) {
        return Err(Refusal::Io);
    }
    match call {
        "places_given" => put_all(out, given),
        "check_strategy" => put_judgement(
            out,
            check_strategy(alloc, game.forward_game(), player, given, strategy),
        ),
        "check_strategy_fast" => put_said(
            out,
            check_strategy_fast(alloc, game.forward_game(), player, given, strategy),
        ),
        "check_strategy_by_order" => put_judgement(
            out,
            check_strategy_by_order(alloc, game.forward_game(), player, given, strategy, order),
        ),
        _ => put_lasso(
            out,
            counterexample(alloc, game.forward_game(), player, given, strategy),
        ),
    }
}

fn put_judgement(out: &mut Vec<u8>, judged: Result<bool, Refusal>) -> Result<(), Refusal> {
    match judged {
        Ok(wins) => put_answer(out, wins),
        Err(refusal) => Err(refusal),
    }
}

/// Puts an answer, or `?` if there is none.
fn put_said(out: &mut Vec<u8>, said: Result<Option<bool>, Refusal>) -> Result<(), Refusal> {
    match said {
        Ok(Some(said)) => put_answer(out, said),
        Ok(None) => Ok(out.push(b'?')?),
        Err(refusal) => Err(refusal),
    }
}

fn are_places(game: &Game, places: &[u32]) -> bool
    ensures { IsTrue result → All (λ place. place < length game.now) places.now }
{
    let count = game.len();
    places.iter().all(|place| (*place as usize) < count)
}

fn put_lasso(out: &mut Vec<u8>, lasso: Result<Option<Lasso>, Refusal>) -> Result<(), Refusal> {
    match lasso {
        Ok(Some(lasso)) => put_parts(out, lasso.stem.as_slice(), lasso.cycle.as_slice()),
        Ok(None) => put_answer(out, true),
        Err(refusal) => Err(refusal),
    }
}

fn put_parts(out: &mut Vec<u8>, stem: &[u32], cycle: &[u32]) -> Result<(), Refusal> {
    put_all(out, stem)?;
    put_all(out, cycle)
}
