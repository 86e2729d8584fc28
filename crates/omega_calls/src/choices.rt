//! Choices of one player in a game, whether they fit, and from where they win.
use crate::lists::{counted_and_rest, numbers, put_answer};
use crate::solutions::put_judged;
use omega_game::{Game, Player, Refusal, Seq, Strategy};
use std::alloc::Global;

/// Returns what a call gives of the numbers of a text. First come the player's number, the count of listed places and
/// these, and the count of an order's places and these. Then comes for each place of the game the number of the chosen
/// place plus 1, or 0 for no choice.
pub(crate) fn of_text(
    alloc: Global,
    call: &str,
    game: &Game,
    text: &[u8],
) -> Result<Vec<u8>, Refusal> {
    match call {
        "fast of all places" => fast_of_all(alloc, game),
        _ => of_numbers(alloc, call, game, numbers(alloc, text)?.as_slice()),
    }
}

fn of_numbers(alloc: Global, call: &str, game: &Game, numbers: &[u32]) -> Result<Vec<u8>, Refusal> {
    let Some((number, lists)) = numbers.split_first() else {
        return Err(Refusal::Io);
    };
    let (places, lists) = counted_and_rest(lists);
    let (order, choices) = counted_and_rest(lists);
    let (player, strategy) = (player_of(*number), strategy_of(alloc, choices)?);
    let mut out = Vec::new(alloc);
    if call == "fits" {
        put_answer(&mut out, strategy.fits(game.forward_game(), player))?;
    } else {
        put_judged(
            alloc, call, game, player, places, order, &strategy, &mut out,
        )?;
    }
    Ok(out)
}

/// Returns the player with the number, which is player 1 for each number but 0.
pub(crate) fn player_of(number: u32) -> Player {
    if number == 0 {
        Player::Zero
    } else {
        Player::One
    }
}

fn strategy_of(alloc: Global, choices: &[u32]) -> Result<Strategy, Refusal> {
    let mut choice = Vec::new(alloc);
    for chosen in choices {
        choice.push(chosen.checked_sub(1))?;
    }
    Ok(Strategy {
        choice: Seq::from_vec(choice),
    })
}

/// Returns what the fast search alone says of all places and no choices, for player 0 and for player 1.
fn fast_of_all(alloc: Global, game: &Game) -> Result<Vec<u8>, Refusal> {
    let none = Strategy {
        choice: Seq::from_vec(vec![in alloc; None; game.len()]?),
    };
    let mut places = Vec::new(alloc);
    for place in 0..game.len() as u32 {
        places.push(place)?;
    }
    let (call, all) = ("check_strategy_fast", places.as_slice());
    let mut out = Vec::new(alloc);
    put_judged(alloc, call, game, Player::Zero, all, all, &none, &mut out)?;
    put_judged(alloc, call, game, Player::One, all, all, &none, &mut out)?;
    Ok(out)
}
