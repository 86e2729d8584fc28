ghost use Rattle.std.specs.Prelude.{◌≡◌, ◌↔◌, ℕ, ◌+◌, ◌-◌, ◌^◌, ◌<◌, ◌≤◌, true, false};
ghost use Rattle.std.specs.Prelude.{is_some, length, slice_get, Some, IsTrue, IsOk};
ghost use Rattle.std.specs.Prelude.{IsOkUnless, IsSome, IfOk, IfErr, IfSome, MatchOption};
ghost use Rattle.omega_game_values.specs.Game.{priorities};
ghost use Rattle.omega_measure.specs.Table.{IsPrepareRefusal, is_too_wide, zero_content};
ghost use Rattle.omega_solve.specs.Limits.{most_lifts};
ghost use Rattle.omega_solve.specs.Solver.{start_of};

use crate::answer::{AnswerRef, fill_answer};
use crate::limits::MOST_LIFTS;
use crate::outcome::Outcome;
use crate::repeating::lift_again;
use crate::successor::due_towards;
use crate::wake::wake_predecessors;
use omega_lift_laws::{
    allowances_are_unique, choices_are_a_strategy, choices_win, places_are_lifted_boundedly,
    regions_stay_below_top, runs_are_bounded, runs_keep_tables, zero_tables_are_tables,
};
use omega_lift_schedules::Schedule;
use omega_measure::{Game, MeasureTable, Player, Refusal};
use std::alloc::Global;
use std::marker::Model;

/// A solver of a game for one player by lifting small progress measures (Jurdziński 2000), over any table of measures
/// and any schedule of places. Only `prepare` and `prepare_in_order` can fail for memory: they make the table, the
/// schedule and the buffers. That no later call requests memory is in no contract. Requests are counted in runs of the
/// built program.
#[derive(Drop)]
pub struct Solver<'g, T: MeasureTable, S: Schedule> {
    game: &'g Game,
    player: Player,
    table: T,
    schedule: S,
    lifts: u64,
    done: bool,
    won: Vec<bool>,
    choice: Vec<Option<u32>>,
}

impl<'g, T: MeasureTable, S: Schedule> Model for Solver<'g, T, S> {
    ghost use Rattle.omega_solve.specs.Solver.{SolverState, solver_state};
    ghost use Rattle.omega_solve.specs.private.solving.Progress.{IsSolver};

    ghost Value = { SolverState };

    ghost view = { λ s. solver_state s.game.now s.player (T.content s.table)
        (S.waiting s.schedule) s.lifts s.done };

    ghost invariant = { λ s. IsSolver
        (solver_state s.game.now s.player (T.content s.table) (S.waiting s.schedule) s.lifts s.done)
        s.won.items s.choice.items };
}

impl<'g, T: MeasureTable, S: Schedule> Solver<'g, T, S> {
    ghost use Rattle.omega_lift_laws.specs.Answer.{AreChoices, won_in};
    ghost use Rattle.omega_lift_laws.specs.Run.{IsDue};
    ghost use Rattle.omega_lift_schedules.specs.Schedule.{IsIdle, IsPending, all_pending, with_taken};
    ghost use Rattle.omega_solve.specs.declared.outcome.Outcome.TheVariants.{Done};
    ghost use Rattle.omega_solve.specs.Headline.{IsExact, Runs};
    ghost use Rattle.omega_solve.specs.private.solving.Successor.{IsDueTowards};
    ghost use Rattle.omega_solve.specs.private.solving.Progress.{IsLifted};
    ghost use Rattle.omega_solve.specs.Solver.{IsFinished, IsReached, attempt_bound, lift_bound};

    /// Makes a solver for `player` with every measure 0. All places are pending, in an order that suits `game` if the
    /// schedule has one. Fails with [TaskFault::TooWide] if the table would be too wide.
    pub fn prepare(
        alloc: Global,
        game: &'g Game,
        player: Player,
    ) -> Result<Solver<'g, T, S>, Refusal>
        ensures start { IfOk result (λ solver. solver ≡ start_of game.entry.now player) }
        ensures fits { IsOk result → is_too_wide player (priorities game.entry.now) ≡ false }
        ensures refused { IfErr result (IsPrepareRefusal player (priorities game.entry.now)) }
    {
        let table = T::prepare(alloc, game, player)?;
        let schedule = S::prepare_for(alloc, game)?;
        let solver = Solver::of_parts(alloc, game, player, table, schedule)?;
        Ok(solver)
    }

    /// Makes a solver as `prepare` does, but with the places of `game` in rising order. It is for a game whose places
    /// are already in the order in which they are to be lifted. Fails as `prepare` does.
    pub fn prepare_in_order(
        alloc: Global,
        game: &'g Game,
        player: Player,
    ) -> Result<Solver<'g, T, S>, Refusal>
        ensures start { IfOk result (λ solver. solver ≡ start_of game.entry.now player) }
        ensures fits { IsOk result → is_too_wide player (priorities game.entry.now) ≡ false }
        ensures refused { IfErr result (IsPrepareRefusal player (priorities game.entry.now)) }
    {
        let table = T::prepare(alloc, game, player)?;
        let schedule = S::prepare(alloc, game.len() as u32)?;
        let solver = Solver::of_parts(alloc, game, player, table, schedule)?;
        Ok(solver)
    }

    /// Makes a solver of `game` that has made no lift.
    fn of_parts(
        alloc: Global,
        game: &'g Game,
        player: Player,
        table: T,
        schedule: S,
    ) -> Result<Solver<'g, T, S>, Refusal>
        requires zero { T.content table ≡ zero_content player (priorities game.now) }
        requires all { S.waiting schedule ≡ all_pending (length game.now) }
        ensures start { IfOk result (λ solver. solver ≡ start_of game.now player) }
        ensures memory { IsOkUnless result Refusal.Memory }
    {
        zero_tables_are_tables();
        let n = game.len();
        Ok(Solver {
            game,
            player,
            table,
            schedule,
            lifts: 0,
            done: false,
            won: vec![in alloc; false; n]?,
            choice: vec![in alloc; None; n]?,
        })
    }

    /// Makes lifts until none is due, at most `budget`. A later run goes on from there, and a solver that is done stays
    /// done.
    ///
    /// If the budget is used up while a place is lifted again and again, the predecessors of that place are woken
    /// early. So with `Nested` the number of lifts needed may depend on how the budget is dealt out.
    pub fn run(&mut self, budget: u64) -> Outcome
        requires { self.old.lifts + budget ≤ most_lifts }
        ensures ran { Runs self.old budget self.new }
        ensures reported { (self.new.done ≡ true) ↔ (result ≡ Done) }
        ensures reached { IsReached self.new }
        ensures bounded { self.new.lifts ≤ lift_bound self.new }
    {
        runs_are_bounded();
        if self.done {
            return Outcome::Done;
        }
        let mut made = 0;
        while let Some(place) = self.next() {
            match self.due_towards(place) {
                None => self.settle(place),
                Some(towards) => {
                    if made == budget {
                        return Outcome::Spent;
                    }
                    let more = self.lift(place, towards, budget - made);
                    made += more;
                }
            }
        }
        self.finish();
        Outcome::Done
    }

    /// Returns how many further lifts the solver may make.
    pub fn room(&self) -> u64
        ensures { result + self.now.lifts ≡ most_lifts }
    {
        MOST_LIFTS - self.lifts
    }

    /// Returns the number of lifts of all runs.
    pub fn lifts(&self) -> u64
        ensures count { result ≡ self.now.lifts }
        ensures reached { IsReached self.now }
        ensures bounded { result ≤ lift_bound self.now }
    {
        runs_are_bounded();
        self.lifts
    }

    /// Returns how often a place was taken, in all runs: out of the pending set, or once more at once if it leads to
    /// itself. A place whose lift the budget held back stays pending and is not counted.
    pub fn attempts(&self) -> u64
        ensures count { result ≡ self.now.pending.taken }
        ensures lifts { self.now.lifts ≤ result }
        ensures bounded { result ≤ attempt_bound self.now }
        ensures each { self.now.done ≡ true → length self.now.nodes ≤ result }
    {
        places_are_lifted_boundedly();
        self.schedule.takes()
    }

    /// Returns the nodes won and the choices there, or none unless the last run returned `Done`.
    pub fn answer(&self) -> Option<AnswerRef<'_>>
        ensures done { is_some result ≡ self.now.done }
        ensures finished { IsSome result → IsFinished self.now }
        ensures won { IfSome result (λ answer. answer.won.now ≡ won_in self.now.table.measures) }
        ensures chosen { IfSome result (λ answer.
            AreChoices self.now.nodes self.now.player self.now.table.measures answer.choice.now) }
        ensures exact { IfSome result (λ answer.
            IsExact self.now.nodes self.now.player answer.won.now answer.choice.now) }
    {
        choices_are_a_strategy();
        choices_win();
        regions_stay_below_top();
        if !self.done {
            return None;
        }
        Some(AnswerRef {
            won: &self.won,
            choice: &self.choice,
        })
    }

    /// Returns a pending place. If it returns `None`, no lift is due.
    fn next(&self) -> Option<u32>
        ensures pending { MatchOption result (IsIdle self.now.pending) (IsPending self.now.pending) }
        ensures finished { MatchOption result (IsFinished self.now)
            (λ place. place < length self.now.nodes) }
    {
        self.schedule.look()
    }

    /// Returns the successor towards which `place` is to be lifted, or none if no lift is due there.
    fn due_towards(&self, place: u32) -> Option<u32>
        requires { place < length self.now.nodes }
        ensures { let solver = self.now in
            MatchOption result
            (¬ IsDue solver.nodes solver.player solver.table.measures place)
            (IsDueTowards solver.nodes solver.player solver.table.measures place) }
    {
        due_towards(self.game, self.player, &self.table, place)
    }

    /// Takes out `place`, at which no lift is due.
    fn settle(&mut self, place: u32)
        requires pending { IsPending self.old.pending place }
        requires done { self.old.done ≡ false }
        requires settled { ¬ IsDue self.old.nodes self.old.player self.old.table.measures place }
        ensures { self.new ≡ record self.old { pending = with_taken self.old.pending place } }
    {
        self.schedule.take(place);
    }

    /// Lifts `place` to its allowance towards `towards` and takes it out. Lifts it again if it leads to itself, at most
    /// `most` times in all, and then makes its predecessors pending. In this order a place with an edge to itself stays
    /// pending, and each predecessor is woken once. Returns how many lifts were made.
    fn lift(&mut self, place: u32, towards: u32, most: u64) -> u64
        requires pending { IsPending self.old.pending place }
        requires done { self.old.done ≡ false }
        requires due { IsDueTowards self.old.nodes self.old.player
            self.old.table.measures place towards }
        requires some { 0 < most }
        requires room { self.old.lifts + most ≤ most_lifts }
        ensures { IsLifted self.old most result self.new }
    {
        allowances_are_unique();
        runs_keep_tables();
        self.table.raise(place, towards);
        self.schedule.take(place);
        let more = lift_again(
            self.game,
            self.player,
            &mut self.table,
            &mut self.schedule,
            place,
            towards,
            most - 1,
        );
        self.lifts += 1 + more;
        wake_predecessors(self.game, &self.table, &mut self.schedule, place);
        1 + more
    }

    /// Marks a solver that has no pending place as done.
    fn finish(&mut self)
        requires idle { IsIdle self.old.pending }
        requires finished { IsFinished self.old }
        ensures { self.new ≡ record self.old { done = true } }
    {
        fill_answer(
            self.game,
            self.player,
            &self.table,
            &mut self.won,
            &mut self.choice,
        );
        self.done = true;
    }
}
