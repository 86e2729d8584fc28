ghost use Rattle.std.specs.Prelude.{◌≡◌, ◌<◌, ◌^◌, length, false, IfOk, IfSome, IsOkUnless, MatchOption};
ghost use Rattle.omega_lift_schedules.specs.PositionSet.{is_set};
ghost use Rattle.omega_lift_schedules.specs.private.Nested.{HasBits, IsEmpty, IsPlaceAt, IsSomePosition};

use crate::position_set::{all_positions, contains, insert, remove};
use crate::schedule::Schedule;
use crate::{FilledWords, Pace, Permutation, least_from};
use omega_game_values::{Game, Refusal};
use std::alloc::Global;
use std::marker::Model;

/// A schedule that takes the pending places component by component, each before those that lead to it. In a component
/// the places of its greatest priority come first, then the others in the same manner, on three levels. Sweeps over the
/// positions in this order take turns with a focus on the least of them. A place that leads to itself is taken again
/// while a lift is due there: up to 64 times in a sweep, and in focus as long as that goes on.
///
/// `prepare` knows no game, and has the places in rising order. For n nodes and m edges, `prepare_for` takes about 3 (n
/// + m) steps, looking may pass over n / 4096 words, and the rest is done in a few steps.
pub struct Nested {
    permutation: Permutation,
    /// The positions of the pending places.
    pending: Vec<u64>,
    /// Which words of `pending` are not empty.
    filled: FilledWords,
    taken: u64,
    pace: Pace,
}

impl Drop for Nested {
    fn drop(self) {
        let Nested {
            permutation: _,
            pending: _,
            filled: _,
            taken: _,
            pace: _,
        } = self;
    }
}

impl Model for Nested {
    ghost use Rattle.omega_lift_schedules.specs.Schedule.{Pending};
    ghost use Rattle.omega_lift_schedules.specs.private.Nested.{flags_of, IsNested};

    ghost Value = { Pending };

    ghost view = { λ s. record {
      flags = flags_of s.permutation.positions s.pending.items;
      taken = s.taken;
    } };

    ghost invariant = { λ s. IsNested s.permutation.positions s.permutation.places s.pending.items };
}

impl Schedule for Nested {
    ghost waiting = { λ s. s };

    fn prepare(alloc: Global, n: u32) -> Result<Self, Refusal> {
        Nested::of_permutation(alloc, Permutation::rising_order(n))
    }

    fn prepare_for(alloc: Global, game: &Game) -> Result<Self, Refusal> {
        let permutation = Permutation::nested_order(alloc, game.forward_game())?;
        Nested::of_permutation(alloc, permutation)
    }

    #[inline(always)]
    fn look(&self) -> Option<u32> {
        let permutation = &self.permutation;
        if let Some(place) = pending_from(
            permutation,
            &self.pending,
            &self.filled,
            self.pace.cursor,
        ) {
            return Some(place);
        }
        if let Some(place) = pending_from(permutation, &self.pending, &self.filled, self.pace.low) {
            return Some(place);
        }
        // It is not proved that nothing is pending then, so it is looked up.
        first_pending(permutation, &self.pending)
    }

    fn is_pending(&self, place: u32) -> bool {
        let position = self.permutation.position(place) as usize;
        contains(&self.pending, position)
    }

    #[inline(always)]
    fn take(&mut self, place: u32) {
        let position = self.permutation.position(place) as usize;
        remove(&mut self.pending, position);
        self.filled.note_removed(&self.pending, position);
        self.taken += 1;
        self.pace.take(position);
    }

    #[inline(always)]
    fn leave_out(&mut self, place: u32) {
        let position = self.permutation.position(place) as usize;
        remove(&mut self.pending, position);
        self.filled.note_removed(&self.pending, position);
        self.taken += 1;
    }

    fn take_again(&mut self) -> bool {
        let again = self.pace.repeat();
        if again {
            self.taken += 1;
        }
        again
    }

    fn takes(&self) -> u64 {
        self.taken
    }

    fn add(&mut self, place: u32) {
        let position = self.permutation.position(place) as usize;
        self.filled.note_insertion(&self.pending, position);
        insert(&mut self.pending, position);
        self.pace.add(position);
    }
}

impl Nested {
    ghost use Rattle.omega_lift_schedules.specs.Schedule.{all_pending};

    /// Makes the schedule along `permutation`, with all places pending.
    fn of_permutation(alloc: Global, permutation: Permutation) -> Result<Nested, Refusal>
        ensures all { IfOk result (λ schedule. schedule ≡ all_pending (length permutation.positions)) }
        ensures memory { IsOkUnless result Refusal.Memory }
    {
        let n = permutation.len();
        Ok(Nested {
            permutation,
            pending: all_positions(alloc, n)?,
            filled: FilledWords::all(alloc, n)?,
            taken: 0,
            pace: Pace::new(),
        })
    }
}

/// Returns the place of the least pending position from `from` on. If it returns none, the caller looks at all
/// positions.
#[inline(always)]
fn pending_from(
    permutation: &Permutation,
    pending: &[u64],
    filled: &FilledWords,
    from: usize,
) -> Option<u32>
    requires bits { HasBits pending.now (length permutation.now.places) }
    ensures { IfSome result (IsSomePosition permutation.now.places pending.now) }
{
    pending_at(permutation, pending, least_from(pending, filled, from)?)
}

/// Returns the place of the least pending position of all.
// A call, since it is seldom made.
#[inline(never)]
fn first_pending(permutation: &Permutation, pending: &[u64]) -> Option<u32>
    requires { HasBits pending.now (length permutation.now.places) }
    ensures { MatchOption result
        (IsEmpty permutation.now.places pending.now)
        (IsSomePosition permutation.now.places pending.now) }
{
    for position in 0..permutation.len() as usize {
        if let Some(place) = pending_at(permutation, pending, position) {
            return Some(place);
        }
    }
    None
}

/// Returns the place of `position`, if the position has one and is pending.
#[inline(always)]
fn pending_at(permutation: &Permutation, pending: &[u64], position: usize) -> Option<u32>
    requires { HasBits pending.now (length permutation.now.places) }
    ensures { MatchOption result
        (position < length permutation.now.places → is_set pending.now position ≡ false)
        (IsPlaceAt permutation.now.places pending.now position) }
{
    if position < permutation.len() as usize && contains(pending, position) {
        Some(permutation.place(position as u32))
    } else {
        None
    }
}
