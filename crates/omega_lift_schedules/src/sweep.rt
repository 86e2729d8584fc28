ghost use Rattle.std.specs.Prelude.{◌≡◌, ℕ, ◌<◌, ◌≤◌, ◌^◌, false, true, length, slice_get, Some, MatchOption};

use crate::schedule::Schedule;
use omega_game_values::Refusal;
use std::alloc::Global;
use std::marker::Model;

/// A schedule that takes the pending places in rising order, round and round. A take goes on to the next pending place,
/// in at most one round, and looking reads that place. A place that is added ahead comes in this round, and one that
/// was passed in the next.
pub struct Sweep {
    pending: Vec<bool>,
    /// The number of pending places.
    count: u32,
    /// The place at which the rest of the round begins: right after the last place looked at and taken.
    from: u32,
    /// The place to look at: the first pending one from `from` on, round the end, if there is one.
    place: u32,
    taken: u64,
}

impl Drop for Sweep {
    fn drop(self) {
        let Sweep {
            pending: _,
            count: _,
            from: _,
            place: _,
            taken: _,
        } = self;
    }
}

impl Model for Sweep {
    ghost use Rattle.omega_lift_schedules.specs.Schedule.{Pending};
    ghost use Rattle.omega_lift_schedules.specs.private.Sweep.{IsSweep};

    ghost Value = { Pending };

    ghost view = { λ s. record { flags = s.pending.items; taken = s.taken } };

    ghost invariant = { λ s.
        IsSweep (record { flags = s.pending.items; taken = s.taken }) s.place s.count };
}

impl Schedule for Sweep {
    ghost waiting = { λ s. s };

    fn prepare(alloc: Global, n: u32) -> Result<Self, Refusal> {
        Ok(Sweep {
            pending: vec![in alloc; true; n as usize]?,
            count: n,
            from: 0,
            place: 0,
            taken: 0,
        })
    }

    fn look(&self) -> Option<u32> {
        if self.count == 0 {
            None
        } else {
            Some(self.place)
        }
    }

    fn is_pending(&self, place: u32) -> bool {
        self.pending[place as usize]
    }

    fn take(&mut self, place: u32) {
        self.pending[place as usize] = false;
        self.count -= 1;
        self.taken += 1;
        if place == self.place {
            self.from = place + 1;
            if self.count > 0 {
                self.place = next_pending(&self.pending, place);
            }
        }
    }

    fn takes(&self) -> u64 {
        self.taken
    }

    fn add(&mut self, place: u32) {
        if self.pending[place as usize] {
            return;
        }
        self.pending[place as usize] = true;
        self.count += 1;
        // Wrapped differences order the places as the sweep comes to them: those after it are of the next round.
        if self.count == 1 || place.wrapping_sub(self.from) < self.place.wrapping_sub(self.from) {
            self.place = place;
        }
    }
}

/// Returns the first pending place after `place`, round the end.
fn next_pending(pending: &Vec<bool>, place: u32) -> u32
    requires small { length pending.now.items < 2 ^ 32 }
    requires some { ¬ ((k : ℕ) → k < length pending.now.items
        → slice_get pending.now.items k ≡ Some false) }
    ensures { slice_get pending.now.items result ≡ Some true }
{
    match pending_from(pending, place) {
        Some(next) => next,
        None => pending_from(pending, 0).unwrap_or(0),
    }
}

/// Returns the first pending place from `place` on.
fn pending_from(pending: &Vec<bool>, place: u32) -> Option<u32>
    requires { length pending.now.items < 2 ^ 32 }
    ensures { MatchOption result ((k : ℕ) → place ≤ k → k < length pending.now.items
        → slice_get pending.now.items k ≡ Some false)
        (λ next. slice_get pending.now.items next ≡ Some true) }
{
    for next in place as usize..pending.len() {
        if pending[next] {
            return Some(next as u32);
        }
    }
    None
}
