ghost use Rattle.std.specs.Prelude.{◌≡◌, ◌↔◌, ◌+◌, ◌-◌, ◌^◌, ◌<◌, length, IfOk};
ghost use Rattle.std.specs.Prelude.{IsTrue, MatchBool, MatchOption, IsOkUnless};
ghost use Rattle.omega_lift_schedules.specs.Schedule.{IsIdle, IsPending, Pending, all_pending};
ghost use Rattle.omega_lift_schedules.specs.Schedule.{with_added, with_taken, with_taken_again};

use omega_game_values::{Game, Refusal};
use std::alloc::Global;

/// The places that a solver has yet to look at, in an order of its own. Only `prepare` and `prepare_for` request
/// memory, so a schedule takes there all that it needs.
pub trait Schedule: Drop {
    /// Which places are pending and how many takes were made, in whatever form they are kept.
    ghost waiting: { Self → Pending };

    /// Makes a schedule of the places below `n`, all pending.
    fn prepare(alloc: Global, n: u32) -> Result<Self, Refusal>
    where
        Self: Sized,
        ensures all { IfOk result (λ schedule. waiting schedule ≡ all_pending n) }
        ensures memory { IsOkUnless result Refusal.Memory };

    /// Makes a schedule of the places of `game`, all pending, in an order that suits the game if the schedule has one.
    fn prepare_for(alloc: Global, game: &Game) -> Result<Self, Refusal>
    where
        Self: Sized,
        ensures all { IfOk result (λ schedule. waiting schedule ≡ all_pending (length game.now)) }
        ensures memory { IsOkUnless result Refusal.Memory }
    {
        Self::prepare(alloc, game.len() as u32)
    }

    /// Returns some pending place, or `None` if no place is pending.
    fn look(&self) -> Option<u32>
        ensures { MatchOption result (IsIdle (waiting self.now)) (IsPending (waiting self.now)) };

    /// Whether `place` is pending.
    fn is_pending(&self, place: u32) -> bool
        requires { place < length (waiting self.now).flags }
        ensures { IsTrue result ↔ IsPending (waiting self.now) place };

    /// Takes out `place`, which is pending.
    fn take(&mut self, place: u32)
        requires pending { IsPending (waiting self.old) place }
        requires counted { (waiting self.old).taken < 2 ^ 64 - 1 }
        ensures { waiting self.new ≡ with_taken (waiting self.old) place };

    /// Takes out `place`, which is pending and need not be the place to look at. A schedule may go on as if the place
    /// had not been pending. Counts as a take.
    fn leave_out(&mut self, place: u32)
        requires pending { IsPending (waiting self.old) place }
        requires counted { (waiting self.old).taken < 2 ^ 64 - 1 }
        ensures { waiting self.new ≡ with_taken (waiting self.old) place }
    {
        self.take(place);
    }

    /// Decides whether the place taken last is taken once more, before any other. It is called if a lift is due there
    /// again. A yes counts as a take.
    fn take_again(&mut self) -> bool
        requires { (waiting self.old).taken < 2 ^ 64 - 1 }
        ensures { MatchBool result
            (waiting self.new ≡ with_taken_again (waiting self.old))
            (waiting self.new ≡ waiting self.old) }
    {
        false
    }

    /// Returns the number of takes so far.
    fn takes(&self) -> u64
        ensures { result ≡ (waiting self.now).taken };

    /// Makes `place` pending, if it is not.
    fn add(&mut self, place: u32)
        requires { place < length (waiting self.old).flags }
        ensures { waiting self.new ≡ with_added (waiting self.old) place };
}
