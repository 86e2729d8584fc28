//! Solves the game for both players in turns.
ghost use Rattle.std.specs.Prelude.{◌≡◌, IfOk, IfErr, IfSome, IsOk, IsOkUnless};
ghost use Rattle.omega_game_values.specs.declared.player.Player.TheVariants.{One, Zero};
ghost use Rattle.omega_game_values.specs.Game.{priorities};
ghost use Rattle.omega_solve.specs.Turns.{EndsRaised, IsAnswerOfRun, IsNarrow, IsTurnsRefusal};
ghost use Rattle.omega_solve.specs.budget.Within.{IsFoundUncounted};

use crate::budget::answering::{choices_of, won_by_place};
use crate::budget::laws::{reorderings_keep_bounds, reorderings_keep_states};
use crate::budget::reordered::Reordered;
use crate::{Nested, PackedTable, TurnsAnswer, TurnsAnswers, headline, solve_in_turns};
use omega_game_values::{Player, Refusal};
use omega_lift_laws::runs_are_bounded;
use std::alloc::Global;

impl Reordered<'_> {
    /// Solves the game for both players in turns, and returns the answers by original place, as `solve` finds them for
    /// a budget of the bound. Each player's lifts are fewer than those of `solve` for most games. They and the places
    /// given up are counted together, and at most the bound. Two tables of measures are in memory at once.
    ///
    /// Returns none if the turns do not suffice; no contract says when they do. Fails with [TaskFault::TooWide] if the
    /// table for one of the players would be too wide.
    pub fn solve_in_turns(&self, alloc: Global) -> Result<Option<TurnsAnswers>, Refusal>
        ensures zero { IfOk result
            (λ found. IfSome found (λ both. IsFoundUncounted self.now.given Zero both.zero)) }
        ensures one { IfOk result
            (λ found. IfSome found (λ both. IsFoundUncounted self.now.given One both.one)) }
        ensures zero_raises { IfOk result
            (λ found. IfSome found (λ both. EndsRaised self.now.reordered Zero both.zero.raises)) }
        ensures one_raises { IfOk result
            (λ found. IfSome found (λ both. EndsRaised self.now.reordered One both.one.raises)) }
        ensures fits { IsOk result → IsNarrow self.now.given }
        ensures refused { IfErr result (IsTurnsRefusal (priorities self.now.given)) }
    {
        self.keeps_nodes();
        let game = self.reordered_game();
        let found = solve_in_turns::<PackedTable, Nested>(alloc, game)?;
        match found {
            Some(both) => {
                let answers = self.answers_by_place(alloc, &both)?;
                Ok(Some(answers))
            }
            None => Ok(None),
        }
    }

    /// Returns the answers for the reordered game by original place.
    fn answers_by_place(&self, alloc: Global, both: &TurnsAnswers) -> Result<TurnsAnswers, Refusal>
        requires zero { IsAnswerOfRun self.now.reordered Zero both.now.zero.won.items
            both.now.zero.choice.items }
        requires one { IsAnswerOfRun self.now.reordered One both.now.one.won.items
            both.now.one.choice.items }
        ensures zero { IfOk result (λ both. IsFoundUncounted self.now.given Zero both.zero) }
        ensures one { IfOk result (λ both. IsFoundUncounted self.now.given One both.one) }
        ensures zero_raises { IfOk result (λ found. found.zero.raises ≡ both.now.zero.raises) }
        ensures one_raises { IfOk result (λ found. found.one.raises ≡ both.now.one.raises) }
        ensures memory { IsOkUnless result Refusal.Memory }
    {
        let zero = self.answer_by_place(alloc, Player::Zero, &both.zero)?;
        let one = self.answer_by_place(alloc, Player::One, &both.one)?;
        Ok(TurnsAnswers { zero, one })
    }

    /// Returns the answer of one player for the reordered game by original place.
    fn answer_by_place(
        &self,
        alloc: Global,
        _player: Player,
        answer: &TurnsAnswer,
    ) -> Result<TurnsAnswer, Refusal>
        requires { IsAnswerOfRun self.now.reordered _player answer.now.won.items
            answer.now.choice.items }
        ensures found { IfOk result (IsFoundUncounted self.now.given _player) }
        ensures raises { IfOk result (λ found. found.raises ≡ answer.now.raises) }
        ensures memory { IsOkUnless result Refusal.Memory }
    {
        headline();
        reorderings_keep_states();
        reorderings_keep_bounds();
        runs_are_bounded();
        self.keeps_nodes();
        let permutation = self.permutation();
        let won = won_by_place(alloc, permutation, answer.won.as_slice())?;
        let choice = choices_of(alloc, permutation, answer.choice.as_slice())?;
        Ok(TurnsAnswer {
            won,
            choice,
            raises: answer.raises,
        })
    }
}
