//! Judges the winners that a solution text gives, whatever its choices, by solving the game.
ghost use Rattle.std.specs.Prelude.{◌≡◌, ◌++◌, ◌<◌, ◌^◌, IfErr, IfNone, IfOk};
ghost use Rattle.std.specs.Prelude.{IfSome, IsOkUnless, None, OnOk, length};
ghost use Rattle.omega_io.specs.Answer.{IsReply};
ghost use Rattle.omega_io.specs.Refused.{IsRefusedOf};
ghost use Rattle.omega_io.specs.declared.answer.Answer.TheVariants.{No};
ghost use Rattle.omega_game_values.specs.Solution.{IsExactSolution, IsSolution};
ghost use Rattle.omega_pg.specs.solution.Winners.{IsReadWinnersRefusal, IsWinnersRefusal, IsWinnersText};
ghost use Rattle.omega_solve.specs.Limits.{most_lifts};
ghost use Rattle.omega_answers_game.specs.Winners.{IsWinnersAnswer, IsWinnersGameRefusal};
ghost use Rattle.omega_answers_game.specs.Winners.{IsWinnersVerdict, RefusesWinners, wrong_line};
ghost use Rattle.omega_answers_game.specs.declared.solve.asked.Asked.TheVariants.{Search};
ghost use Rattle.omega_answers_game.specs.solve.Refusing.{IsSolveGameRefusal};
ghost use Rattle.omega_answers_game.specs.solve.Searching.{IsSearched, unsearched};
ghost use Rattle.omega_answers_game.specs.private.steps.Winners.{AreWinnersJudged, GiveTheSame};
ghost use Rattle.omega_answers_game.specs.private.steps.Winners.{IsFirstDifference, IsUnsolvedRefusal};
ghost use Rattle.omega_answers_game.specs.private.steps.Winners.{explanation_text, refutation_lines};

use super::judged_game;
use crate::dropping::{drop_game, drop_whole};
use crate::numbered::append_numbered;
use crate::player_text::append_player;
use crate::solve::searched::searched_solution;
use crate::solve::searching::Searching;
use omega_game::{ForwardGame, Game, Player, Refusal, Solution};
use omega_io::{Answer, Exit, Refused, Which};
use omega_pg::{read_winners, write_solution};
use omega_solve::MOST_LIFTS;
use omega_solve::budget::NoObserver;
use std::alloc::Global;

/// Judges the winners that the solution in `text` gives. Its choices are passed over, so that a text of winners alone
/// will do. The answer `no` names the first node in rising order of identifiers that is not won by the winner given to
/// it, and its winner. With `explain` the text of a solution follows. If an identifier `from` is given, the winners are
/// those of the part that its node reaches.
///
/// The game is solved by the search whose answer is judged, or else by lifting. Fails with the [Refusal::Text] or
/// [Refusal::Game] of the game's text, or else with [TaskFault::UnknownNode]; both are of the file's text. Or else
/// fails with the [Refusal::Text] or [TaskFault::BadSolution] of the solution's text. Or else fails with
/// [TaskFault::TooWide] or [TaskFault::Budget] of the file's text, if the search gives no answer and lifting does not
/// solve the game.
pub fn verify_winners(
    alloc: Global,
    game: &[u8],
    from: Option<u32>,
    text: &[u8],
    explain: bool,
) -> Result<(Exit, Vec<u8>), Refused>
    ensures answer { IfOk result
        (λ made. IsWinnersAnswer game.now from text.now explain made.0 made.1.items) }
    ensures refused { IfErr result (IsRefusedOf (IsWinnersGameRefusal game.now from text.now)
        (RefusesWinners game.now from text.now)) }
{
    match judged_game(alloc, game, from) {
        Ok(game) => winners_judged(alloc, game, text, explain),
        Err(refusal) => Err(Refused::of(Which::File, refusal)),
    }
}

/// Returns the verdict on the winners of `game` in `text`. Fails with the [Refusal::Text] or [TaskFault::BadSolution]
/// of the text, or else with [TaskFault::TooWide] or [TaskFault::Budget] of the game.
fn winners_judged(
    alloc: Global,
    game: ForwardGame,
    text: &[u8],
    explain: bool,
) -> Result<(Exit, Vec<u8>), Refused>
    ensures judged { IfOk result
        (λ made. AreWinnersJudged game text.now explain made.0 made.1.items) }
    ensures refused { IfErr result
        (IsRefusedOf (IsUnsolvedRefusal game text.now) (IsWinnersRefusal game text.now)) }
{
    match winners_in(alloc, &game, text) {
        Ok(winners) => match verdict_on_winners(alloc, game, winners.as_slice(), explain) {
            Ok(made) => Ok(made),
            Err(refusal) => Err(Refused::of(Which::File, refusal)),
        },
        Err(refusal) => {
            drop_game(game);
            Err(Refused::of(Which::Input, refusal))
        }
    }
}

/// Reads the winners of `game` in `text`: one of each node.
fn winners_in(alloc: Global, game: &ForwardGame, text: &[u8]) -> Result<Vec<Player>, Refusal>
    ensures winners { IfOk result (λ winners. IsWinnersText game.now text.now winners.items) }
    ensures count { IfOk result (λ winners. length winners.items ≡ length game.now) }
    ensures refused { IfErr result (IsReadWinnersRefusal game.now text.now) }
{
    let winners = read_winners(alloc, game, text)?;
    Ok(winners)
}

/// Solves `game` and returns the verdict on `winners`. Fails with [TaskFault::TooWide] or [TaskFault::Budget] if the
/// game is not solved.
fn verdict_on_winners(
    alloc: Global,
    game: ForwardGame,
    winners: &[Player],
    explain: bool,
) -> Result<(Exit, Vec<u8>), Refusal>
    requires { length winners.now ≡ length game }
    ensures verdict { IfOk result
        (λ made. IsWinnersVerdict game winners.now explain made.0 made.1.items) }
    ensures refused { IfErr result (IsSolveGameRefusal game Search None most_lifts) }
{
    let whole = game.with_predecessors(alloc)?;
    let mut searching = Searching::in_turns();
    let made = verdict_by_search(alloc, &whole, &mut searching, winners, explain);
    drop_whole(whole);
    made
}

/// Solves `game` and returns the verdict on `winners`, as `verdict_on_winners` does. The search is one by both
/// searchers in turns, with an effort of 1.
fn verdict_by_search(
    alloc: Global,
    game: &Game,
    searching: &mut Searching,
    winners: &[Player],
    explain: bool,
) -> Result<(Exit, Vec<u8>), Refusal>
    requires count { length winners.now ≡ length game.now }
    requires in_turns { searching.old ≡ unsearched None 1 }
    ensures verdict { IfOk result
        (λ made. IsWinnersVerdict game.now winners.now explain made.0 made.1.items) }
    ensures searched { OnOk result (IsSearched searching.old searching.new) }
    ensures refused { IfErr result (IsSolveGameRefusal game.now Search None most_lifts) }
{
    let solution = searched_solution(alloc, game, searching, MOST_LIFTS, &NoObserver, &mut ())?;
    verdict_by(alloc, game.forward_game(), &solution, winners, explain)
}

/// Returns the verdict on `winners` by the exact `solution` of `game`.
fn verdict_by(
    alloc: Global,
    game: &ForwardGame,
    solution: &Solution,
    winners: &[Player],
    explain: bool,
) -> Result<(Exit, Vec<u8>), Refusal>
    requires count { length winners.now ≡ length game.now }
    requires exact { IsExactSolution game.now solution.now }
    ensures verdict { IfOk result
        (λ made. IsWinnersVerdict game.now winners.now explain made.0 made.1.items) }
    ensures memory { IsOkUnless result Refusal.Memory }
{
    game.keeps_limits();
    match first_difference(solution.winners.as_slice(), winners) {
        None => Answer::Yes.reply(alloc),
        Some(place) => {
            let lines = refutation(alloc, game, solution, place, explain)?;
            Answer::no_with(lines).reply(alloc)
        }
    }
}

/// Returns the first place at which `given` differs from `winners`.
fn first_difference(winners: &[Player], given: &[Player]) -> Option<u32>
    requires count { length given.now ≡ length winners.now }
    requires few { length winners.now < 2 ^ 32 }
    ensures found { IfSome result (IsFirstDifference winners.now given.now) }
    ensures same { IfNone result (GiveTheSame winners.now given.now) }
{
    for place in 0..winners.len() {
        if !winners[place].is_same(given[place]) {
            return Some(place as u32);
        }
    }
    None
}

/// Returns the lines after `no` for the node at `place`: its winner, and with `explain` the text of `solution`.
fn refutation(
    alloc: Global,
    game: &ForwardGame,
    solution: &Solution,
    place: u32,
    explain: bool,
) -> Result<Vec<u8>, Refusal>
    requires solution { IsSolution game.now solution.now }
    requires place { place < length game.now }
    ensures lines { IfOk result
        (λ lines. lines.items ≡ refutation_lines explain game.now solution.now place) }
    ensures memory { IsOkUnless result Refusal.Memory }
{
    let mut out = Vec::new(alloc);
    let winner = solution.winners.as_slice()[place as usize];
    append_wrong(game, place, winner, &mut out)?;
    append_explanation(alloc, game, solution, explain, &mut out)?;
    Ok(out)
}

/// Appends the text of `solution`, if `explain` is set.
fn append_explanation(
    alloc: Global,
    game: &ForwardGame,
    solution: &Solution,
    explain: bool,
    out: &mut Vec<u8>,
) -> Result<(), Refusal>
    requires { IsSolution game.now solution.now }
    ensures text { OnOk result
        (out.new.items ≡ out.old.items ++ explanation_text explain game.now solution.now) }
    ensures memory { IsOkUnless result Refusal.Memory }
{
    if !explain {
        return Ok(());
    }
    let text = write_solution(alloc, game, solution)?;
    out.extend_from_slice(text.as_slice())?;
    Ok(())
}

/// Appends a line with the identifier of the node at `place` and its `winner`.
fn append_wrong(
    game: &ForwardGame,
    place: u32,
    winner: Player,
    out: &mut Vec<u8>,
) -> Result<(), Refusal>
    requires { place < length game.now }
    ensures text { OnOk result (out.new.items ≡ out.old.items ++ wrong_line game.now place winner) }
    ensures memory { IsOkUnless result Refusal.Memory }
{
    append_numbered(b"node ", u128::from(game.id(place)), out)?;
    out.extend_from_slice(b" ")?;
    append_player(winner, out)?;
    out.extend_from_slice(b"\n")?;
    Ok(())
}
