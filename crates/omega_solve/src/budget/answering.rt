//! Translates the answer for the reordered game back to the original places.
ghost use Rattle.std.specs.Prelude.{◌≡◌, ℕ, ◌<◌, true, false, length, slice_index_or};
ghost use Rattle.std.specs.Prelude.{IfOk, IfErr, IfSome, IsOk, IsOkUnless, None};
ghost use Rattle.omega_game_values.specs.Game.{priorities};
ghost use Rattle.omega_measure.specs.Table.{IsPrepareRefusal, is_too_wide};
ghost use Rattle.omega_solve.specs.budget.Reordering.{flags_by_place, measures_by_place};
ghost use Rattle.omega_solve.specs.budget.private.steps.Reordering.{choices_by_place};
ghost use Rattle.omega_lift_laws.specs.Answer.{AreChoices, won_in};
ghost use Rattle.omega_solve.specs.Headline.{IsExact};
ghost use Rattle.omega_solve.specs.Solver.{start_of};

use crate::budget::found::Found;
use crate::budget::reordered::Reordered;
use crate::{MeasureTable, Schedule, Solver, headline};
use omega_game_values::{Player, Refusal};
use omega_lift_schedules::Permutation;
use std::alloc::Global;

impl Reordered<'_> {
    /// Makes a solver for the reordered game, with every measure 0. All places are pending in rising order, which is
    /// the order to lift them in. Fails with [TaskFault::TooWide] if the table would be too wide.
    pub(crate) fn prepare<T: MeasureTable, S: Schedule>(
        &self,
        alloc: Global,
        player: Player,
    ) -> Result<Solver<'_, T, S>, Refusal>
        ensures start { IfOk result (λ solver. solver ≡ start_of self.now.reordered player) }
        ensures fits { IsOk result → is_too_wide player (priorities self.now.given) ≡ false }
        ensures refused { IfErr result (IsPrepareRefusal player (priorities self.now.given)) }
    {
        self.keeps_nodes();
        let game = self.reordered_game();
        Solver::prepare_in_order(alloc, game, player)
    }

    /// Returns the answer of `solver`, a solver for the reordered game that is done, by original place.
    pub(crate) fn found_by<T: MeasureTable, S: Schedule>(
        &self,
        alloc: Global,
        solver: &Solver<'_, T, S>,
    ) -> Result<Found, Refusal>
        requires nodes { solver.now.nodes ≡ self.now.reordered }
        requires done { solver.now.done ≡ true }
        ensures lifts { IfOk result (λ found. found.lifts ≡ solver.now.lifts) }
        ensures exact { IfOk result (λ found.
            IsExact self.now.given solver.now.player found.won.items found.choice.items) }
        ensures below_top { IfOk result (λ found. found.won.items
            ≡ won_in (measures_by_place self.now.positions solver.now.table.measures)) }
        ensures chosen { IfOk result (λ found.
            AreChoices self.now.given solver.now.player
            (measures_by_place self.now.positions solver.now.table.measures) found.choice.items) }
        ensures memory { IsOkUnless result Refusal.Memory }
    {
        headline();
        self.keeps_nodes();
        let lifts = solver.lifts();
        let answer = solver.answer().unwrap();
        let permutation = self.permutation();
        Ok(Found {
            won: won_by_place(alloc, permutation, answer.won)?,
            choice: choices_of(alloc, permutation, answer.choice)?,
            lifts,
        })
    }
}

/// Lists by place the flags `won`, which are listed by position.
pub(crate) fn won_by_place(
    alloc: Global,
    permutation: &Permutation,
    won: &[bool],
) -> Result<Vec<bool>, Refusal>
    requires { length won.now ≡ length permutation.now.positions }
    ensures won { IfOk result
        (λ flags. flags.items ≡ flags_by_place permutation.now.positions won.now) }
    ensures memory { IsOkUnless result Refusal.Memory }
{
    let count = permutation.len();
    let mut flags = Vec::with_capacity(alloc, count as usize)?;
    for place in 0..count {
        flags.push(won[permutation.position(place) as usize])?;
    }
    Ok(flags)
}

/// Lists by place the choices, which are listed by position and name positions, as choices of places.
pub(crate) fn choices_of(
    alloc: Global,
    permutation: &Permutation,
    choices: &[Option<u32>],
) -> Result<Vec<Option<u32>>, Refusal>
    requires entries { length choices.now ≡ length permutation.now.positions }
    requires positions { (r : ℕ)
        → IfSome (slice_index_or choices.now r None) (λ w. w < length permutation.now.places) }
    ensures choices { IfOk result (λ places. places.items
        ≡ choices_by_place permutation.now.positions permutation.now.places choices.now) }
    ensures memory { IsOkUnless result Refusal.Memory }
{
    let count = permutation.len();
    let mut places = Vec::with_capacity(alloc, count as usize)?;
    for place in 0..count {
        let choice = choices[permutation.position(place) as usize];
        places.push(match choice {
            Some(position) => Some(permutation.place(position)),
            None => None,
        })?;
    }
    Ok(places)
}
