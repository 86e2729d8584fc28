//! The outcome that a winning strategy gives.

ghost use Rattle.std.specs.Prelude.{◌≡◌, ◌<◌, IfOk, IsOkUnless, length};
ghost use Rattle.omega_game_values.specs.declared.player.Player.TheVariants.{One, Zero};
ghost use Rattle.omega_synth_rounds.specs.Extracting.{IsWinningFrom};
ghost use Rattle.omega_synth_rounds.specs.Rounds.{IsRounds};
ghost use Rattle.omega_synth_rounds.specs.RoundsGame.{IsRoundsGame};
ghost use Rattle.omega_synth_realize.specs.Solving.{IsOutcome, winner_of};

use crate::met::met_edges;
use crate::outcome::Outcome;
use omega_synth_rounds::{
    Game, Rounds, asked_questions, chosen_answers, chosen_answers_win, chosen_questions_win,
};
use omega_text::{Refusal, Seq};
use std::alloc::Global;

/// Returns the outcome in which player 0 answers from `start` by `choices`, which win.
pub(crate) fn controller_outcome(
    alloc: Global,
    rounds: &Rounds,
    game: &Game,
    choices: &[Option<u32>],
    start: u32,
) -> Result<Outcome, Refusal>
    requires rounds { IsRounds rounds.now }
    requires game { IsRoundsGame rounds.now game.now }
    requires start { start < length rounds.now.states }
    requires winning { IsWinningFrom game.now Zero choices.now start }
    ensures outcome { IfOk result (IsOutcome rounds.now start) }
    ensures winner { IfOk result (λ outcome. winner_of outcome ≡ Zero) }
    ensures memory { IsOkUnless result Refusal.Memory }
{
    chosen_answers_win();
    game.keeps_limits();
    let chosen = chosen_answers(alloc, rounds, choices)?;
    let kept = met_edges(alloc, rounds, start, chosen.as_slice())?;
    Ok(Outcome::Answered {
        kept: Seq::from_vec(kept),
    })
}

/// Returns the outcome in which player 1 asks from `start` by `choices`, which win.
pub(crate) fn counter_strategy_outcome(
    alloc: Global,
    rounds: &Rounds,
    game: &Game,
    choices: &[Option<u32>],
    start: u32,
) -> Result<Outcome, Refusal>
    requires rounds { IsRounds rounds.now }
    requires game { IsRoundsGame rounds.now game.now }
    requires start { start < length rounds.now.states }
    requires winning { IsWinningFrom game.now One choices.now start }
    ensures outcome { IfOk result (IsOutcome rounds.now start) }
    ensures winner { IfOk result (λ outcome. winner_of outcome ≡ One) }
    ensures memory { IsOkUnless result Refusal.Memory }
{
    chosen_questions_win();
    game.keeps_limits();
    let found = asked_questions(alloc, rounds, choices)?;
    let kept = met_edges(alloc, rounds, start, found.kept.as_slice())?;
    Ok(Outcome::Asked {
        kept: Seq::from_vec(kept),
        asked: Seq::from_vec(found.asked),
    })
}
