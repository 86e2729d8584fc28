//! Calls on the game of a text, which is read once and lent: a function that owns a game is slow to prove.
use crate::lists::only_number;
use crate::{building, quiet, solutions, solving};
use omega_game::{Game, Refusal, part};
use omega_pg::{read_game, write_game};
use std::alloc::Global;

/// Returns what the call of this group and name gives of the game of `text` and of the other text.
pub(crate) fn answer_call(
    alloc: Global,
    group: &str,
    call: &str,
    text: &[u8],
    other: &[u8],
) -> Result<Vec<u8>, Refusal> {
    match read_game(alloc, text) {
        Ok(game) => of_group(alloc, group, call, &game, other),
        Err(refusal) => Err(refusal),
    }
}

fn of_group(
    alloc: Global,
    group: &str,
    call: &str,
    game: &Game,
    other: &[u8],
) -> Result<Vec<u8>, Refusal> {
    match group {
        "solving" => solving::of_game(alloc, call, game, other),
        "solutions" => solutions::of_game(alloc, call, game, other),
        _ => of_game(alloc, call, game, other),
    }
}

fn of_game(alloc: Global, call: &str, game: &Game, other: &[u8]) -> Result<Vec<u8>, Refusal> {
    match call {
        "read_game" => write_game(alloc, game.forward_game()),
        "GameBuilder" => building::built_again(alloc, game),
        "game" => quiet::of_game(alloc, game, quiet::runs(other)),
        _ => read_of_part(alloc, game, other),
    }
}

/// Returns what is read of the part of the node whose identifier is the only number of a text.
fn read_of_part(alloc: Global, game: &Game, text: &[u8]) -> Result<Vec<u8>, Refusal> {
    match game.place_of(only_number(alloc, text)?) {
        Some(place) => read_of_game(alloc, part(alloc, game, place)),
        None => Err(Refusal::Io),
    }
}

fn read_of_game(alloc: Global, made: Result<Game, Refusal>) -> Result<Vec<u8>, Refusal> {
    match made {
        Ok(game) => quiet::of_game(alloc, &game, true),
        Err(refusal) => Err(refusal),
    }
}
