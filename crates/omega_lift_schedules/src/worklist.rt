ghost use Rattle.std.specs.Prelude.{◌≡◌, ℕ, ◌+◌, ◌<◌, ◌≤◌, length};
ghost use Rattle.omega_lift_schedules.specs.private.Worklist.{ClosesGap, queued, slot_of};

use crate::schedule::Schedule;
use omega_game_values::Refusal;
use omega_graph_search::numbers_below;
use std::alloc::Global;
use std::marker::Model;

/// A schedule that takes the pending places first in, first out. At first all are pending, in rising order. An added
/// place goes last, and a place that is pending already keeps its position. Taking another place than the one to look
/// at goes through the queue.
pub struct Worklist {
    /// A slot for each place; the queue begins at `first` and goes round the end.
    ring: Vec<u32>,
    first: usize,
    count: usize,
    pending: Vec<bool>,
    taken: u64,
}

impl Drop for Worklist {
    fn drop(self) {
        let Worklist {
            ring: _,
            first: _,
            count: _,
            pending: _,
            taken: _,
        } = self;
    }
}

impl Model for Worklist {
    ghost use Rattle.omega_lift_schedules.specs.Schedule.{Pending};
    ghost use Rattle.std.specs.List.{range_with_len};
    ghost use Rattle.omega_lift_schedules.specs.private.Worklist.{IsWorklist};

    ghost Value = { Pending };

    ghost view = { λ w. record { flags = w.pending.items; taken = w.taken } };

    ghost invariant = { λ w. IsWorklist
        (record { flags = w.pending.items; taken = w.taken }) w.ring.items w.first w.count };
}

impl Schedule for Worklist {
    ghost waiting = { λ w. w };

    fn prepare(alloc: Global, n: u32) -> Result<Self, Refusal> {
        Ok(Worklist {
            ring: numbers_below(alloc, n)?,
            first: 0,
            count: n as usize,
            pending: vec![in alloc; true; n as usize]?,
            taken: 0,
        })
    }

    fn look(&self) -> Option<u32> {
        if self.count == 0 {
            None
        } else {
            Some(self.ring[slot(self.ring.len(), self.first, 0)])
        }
    }

    fn is_pending(&self, place: u32) -> bool {
        self.pending[place as usize]
    }

    fn take(&mut self, place: u32) {
        let at = position_of(&self.ring, self.first, self.count, place);
        close_gap(&mut self.ring, self.first, at);
        self.first = slot(self.ring.len(), self.first, 1);
        self.count -= 1;
        self.pending[place as usize] = false;
        self.taken += 1;
    }

    fn takes(&self) -> u64 {
        self.taken
    }

    fn add(&mut self, place: u32) {
        if self.pending[place as usize] {
            return;
        }
        let last = slot(self.ring.len(), self.first, self.count);
        self.ring[last] = place;
        self.count += 1;
        self.pending[place as usize] = true;
    }
}

/// Returns the slot of the `k`-th place of the queue, in a ring of `n` slots.
fn slot(n: usize, first: usize, k: usize) -> usize
    requires { first ≤ n }
    ensures { result ≡ slot_of n first k }
{
    let following = n - first;
    if k < following {
        first + k
    } else {
        k - following
    }
}

/// Returns the position of `place` in the queue, which usually is its front.
fn position_of(ring: &Vec<u32>, first: usize, count: usize, place: u32) -> usize
    requires begins { first ≤ length ring.now.items }
    requires count { count ≤ length ring.now.items }
    requires stands { (k : ℕ) × (k < count) × (queued ring.now.items first k ≡ place) }
    ensures inside { result < count }
    ensures stands { queued ring.now.items first result ≡ place }
{
    let mut at = 0;
    while ring[slot(ring.len(), first, at)] != place {
        at += 1;
    }
    at
}

/// Takes the `k`-th place out of the queue. The places before it move one back, and the first slot is free.
fn close_gap(ring: &mut Vec<u32>, first: usize, k: usize)
    requires begins { first ≤ length ring.old.items }
    requires inside { k < length ring.old.items }
    ensures { ClosesGap ring.old.items first k ring.new.items }
{
    let n = ring.len();
    let mut gap = k;
    while gap > 0 {
        ring[slot(n, first, gap)] = ring[slot(n, first, gap - 1)];
        gap -= 1;
    }
}
