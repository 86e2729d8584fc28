//! Solutions as arrays.
ghost use Rattle.std.specs.Prelude.{◌≡◌, ◌≢◌, ℕ, ◌≤◌, ◌<◌, ◌^◌, ◌↔◌, All, IfOk};
ghost use Rattle.std.specs.Prelude.{IsOkUnless, IsTrue, None, length, map, unwrap_or};
ghost use Rattle.omega_game_values.specs.declared.player.Player.{Player};
ghost use Rattle.omega_game_values.specs.Game.{owner_at};
ghost use Rattle.omega_game_values.specs.Solution.{IsSolution, choices_of};
ghost use Rattle.omega_arrays.specs.Answer.{choice_for, choice_of, choices_for, no_choice};
ghost use Rattle.omega_arrays.specs.Answer.{solution_in, wrong_answer, wrong_room};
ghost use Rattle.omega_arrays.specs.Arrays.{node_count, player_of};
ghost use Rattle.omega_arrays.specs.Shape.{IsGameShape};
ghost use Rattle.omega_arrays.specs.private.Written.{AreWritten, ChoosesWhereWon};

use crate::arrays::Arrays;
use crate::building::player_of;
use crate::fault::WrongEntry;
use crate::shape::{first_owner_above, miscounted_entry};
use omega_game::{ForwardGame, Player, Refusal, Seq, Solution, Strategy};
use std::alloc::Global;

/// The entry of a place without a choice, 2^32 - 1.
pub const NO_CHOICE: u32 = 4_294_967_295;

const WINNERS: u32 = 4;

const CHOICES: u32 = 5;

/// Returns the first entry that is wrong in `arrays`, or by the lengths of the arrays for an answer.
pub(crate) fn wrong_room(arrays: &Arrays<'_>, winners: usize, choices: usize) -> Option<WrongEntry>
    ensures first { result ≡ wrong_room arrays.now winners choices }
    ensures shape { result ≡ None → IsGameShape arrays.now }
    ensures winners { result ≡ None → winners ≡ node_count arrays.now }
    ensures choices { result ≡ None → choices ≡ node_count arrays.now }
{
    if let Some(wrong) = arrays.wrong_entry() {
        return Some(wrong);
    }
    let count = arrays.priorities().len();
    if let Some(wrong) = miscounted_entry(WINNERS, winners, count) {
        return Some(wrong);
    }
    miscounted_entry(CHOICES, choices, count)
}

/// Returns the first entry that is wrong in `arrays`, or in the arrays that should hold a solution.
pub(crate) fn wrong_answer(
    arrays: &Arrays<'_>,
    winners: &[u8],
    choices: &[u32],
) -> Option<WrongEntry>
    ensures first { result ≡ wrong_answer arrays.now winners.now choices.now }
    ensures shape { result ≡ None → IsGameShape arrays.now }
    ensures winners { result ≡ None → length winners.now ≡ node_count arrays.now }
    ensures choices { result ≡ None → length choices.now ≡ node_count arrays.now }
{
    if let Some(wrong) = wrong_room(arrays, winners.len(), choices.len()) {
        return Some(wrong);
    }
    first_owner_above(WINNERS, 1, winners)
}

/// Writes `solution` into `winners` and `choices`.
pub(crate) fn write_solution(
    game: &ForwardGame,
    solution: &Solution,
    winners: &mut [u8],
    choices: &mut [u32],
)
    requires fits { IsSolution game.now solution.now }
    requires winners { length winners.old ≡ length game.now }
    requires choices { length choices.old ≡ length game.now }
    ensures held { solution_in winners.new choices.new ≡ solution.now }
    ensures players { All (λ p. p ≤ 1) winners.new }
{
    game.keeps_limits();
    write_places(solution, winners, choices);
}

/// Writes the winner of each place, and the winner's choice there.
fn write_places(solution: &Solution, winners: &mut [u8], choices: &mut [u32])
    requires winners { length winners.old ≡ length solution.now.winners }
    requires choices { length choices.old ≡ length solution.now.winners }
    requires few { length winners.old < 2 ^ 32 }
    requires entries { (player : Player)
        → length (choices_of solution.now player) ≡ length solution.now.winners }
    ensures { AreWritten solution.now (length winners.old) winners.new choices.new }
{
    for place in 0..winners.len() {
        let winner = solution.winners.as_slice()[place];
        winners[place] = number_of(winner);
        choices[place] = entry_of(solution.choice(winner, place as u32));
    }
}

/// Returns the number of a player.
fn number_of(player: Player) -> u8
    ensures players { result ≤ 1 }
    ensures number { player_of result ≡ player }
{
    match player {
        Player::Zero => 0,
        Player::One => 1,
    }
}

/// Returns the entry for a choice.
fn entry_of(choice: Option<u32>) -> u32
    ensures { result ≡ unwrap_or choice no_choice }
{
    choice.unwrap_or(NO_CHOICE)
}

/// Returns the solution that the arrays hold, whether it is a solution of some game or not.
pub(crate) fn solution_held(
    alloc: Global,
    winners: &[u8],
    choices: &[u32],
) -> Result<Solution, Refusal>
    requires { length choices.now ≡ length winners.now }
    ensures held { IfOk result (λ solution. solution ≡ solution_in winners.now choices.now) }
    ensures memory { IsOkUnless result Refusal.Memory }
{
    let players = players_in(alloc, winners)?;
    let zero = choices_held(alloc, Player::Zero, winners, choices)?;
    let one = choices_held(alloc, Player::One, winners, choices)?;
    Ok(Solution {
        winners: Seq::from_vec(players),
        zero: Strategy {
            choice: Seq::from_vec(zero),
        },
        one: Strategy {
            choice: Seq::from_vec(one),
        },
    })
}

/// Returns the players with these numbers.
fn players_in(alloc: Global, numbers: &[u8]) -> Result<Vec<Player>, Refusal>
    ensures players { IfOk result (λ players. players.items ≡ map player_of numbers.now) }
    ensures memory { IsOkUnless result Refusal.Memory }
{
    let mut players = Vec::with_capacity(alloc, numbers.len())?;
    for number in numbers {
        players.push(player_of(*number))?;
    }
    Ok(players)
}

/// Returns the choices of `player` that the arrays hold.
fn choices_held(
    alloc: Global,
    player: Player,
    winners: &[u8],
    choices: &[u32],
) -> Result<Vec<Option<u32>>, Refusal>
    requires { length choices.now ≡ length winners.now }
    ensures held { IfOk result (λ held. held.items ≡ choices_for player winners.now choices.now) }
    ensures memory { IsOkUnless result Refusal.Memory }
{
    let mut held = Vec::with_capacity(alloc, winners.len())?;
    for place in 0..winners.len() {
        held.push(choice_for(player, player_of(winners[place]), choices[place]))?;
    }
    Ok(held)
}

/// Returns the choice of `player` at a place with this winner and this entry.
fn choice_for(player: Player, winner: Player, entry: u32) -> Option<u32>
    ensures { result ≡ choice_for player winner entry }
{
    match (player, winner) {
        (Player::Zero, Player::Zero) | (Player::One, Player::One) => choice_of(entry),
        _ => None,
    }
}

/// Returns the choice that `entry` encodes.
fn choice_of(entry: u32) -> Option<u32>
    ensures { result ≡ choice_of entry }
{
    if entry == NO_CHOICE {
        None
    } else {
        Some(entry)
    }
}

/// Whether the arrays hold a solution of the game. What they hold is also given as `solution`.
#[tactic(auto, using(crate::proofs::Answering::one_unfit, crate::proofs::Answering::zero_unfit))]
pub(crate) fn is_solution(
    game: &ForwardGame,
    solution: &Solution,
    winners: &[u8],
    choices: &[u32],
) -> bool
    requires held { solution.now ≡ solution_in winners.now choices.now }
    requires winners { length winners.now ≡ length game.now }
    requires choices { length choices.now ≡ length game.now }
    ensures { IsTrue result ↔ IsSolution game.now solution.now }
{
    game.keeps_limits();
    if !solution.zero.fits(game, Player::Zero) {
        return false;
    }
    if !solution.one.fits(game, Player::One) {
        return false;
    }
    chooses_where_won(game, winners, choices)
}

/// Whether each place has a choice exactly if its owner wins.
fn chooses_where_won(game: &ForwardGame, winners: &[u8], choices: &[u32]) -> bool
    requires winners { length winners.now ≡ length game.now }
    requires choices { length choices.now ≡ length game.now }
    ensures { IsTrue result
        ↔ ((v : ℕ) → v < length game.now → ChoosesWhereWon game.now winners.now choices.now v) }
{
    game.keeps_limits();
    for place in 0..winners.len() {
        if !chooses_if_won(game, place as u32, winners[place], choices[place]) {
            return false;
        }
    }
    true
}

/// Whether `place` has a choice exactly if its owner wins.
fn chooses_if_won(game: &ForwardGame, place: u32, winner: u8, choice: u32) -> bool
    requires { place < length game.now }
    ensures { IsTrue result ↔ ((choice ≢ no_choice) ↔ (owner_at game.now place ≡ player_of winner)) }
{
    (choice != NO_CHOICE) == game.owner(place).is_same(player_of(winner))
}
