//! In which order schedules look.
ghost use Rattle.std.specs.Prelude.{◌≡◌, length};

use crate::rows::assert_row;
use omega_solve::{Nested, Schedule, Sweep, Worklist};
use std::alloc::Global;
use std::process::Abort;

/// Takes a schedule through a step, and says whether it can be done. After `+` a place is made pending, and after `-`
/// one that is pending is taken out. Else the place to look at is taken out, if it is this one.
fn obeys<S: Schedule>(schedule: &mut S, places: u32, sign: u8, place: u32) -> bool
    requires { length (S.waiting schedule.old).flags ≡ places }
    ensures { length (S.waiting schedule.new).flags ≡ places }
{
    if place >= places || schedule.takes() >= 100 {
        return false;
    }
    match sign {
        b'+' => {
            schedule.add(place);
            true
        }
        b'-' => {
            let is_pending = schedule.is_pending(place);
            if is_pending {
                schedule.take(place);
            }
            is_pending
        }
        _ => match schedule.look() {
            Some(front) => {
                if front == place {
                    schedule.take(front);
                }
                front == place
            }
            None => false,
        },
    }
}

/// Takes a schedule through steps, and says whether they can be done and leave none pending. A digit is a place.
fn follows<S: Schedule>(schedule: &mut S, places: u32, steps: &[u8]) -> bool
    requires { length (S.waiting schedule.old).flags ≡ places }
{
    let mut sign = b' ';
    for step in steps {
        if step.is_ascii_digit() {
            if !obeys(schedule, places, sign, u32::from(step.wrapping_sub(b'0'))) {
                return false;
            }
            sign = b' ';
        } else {
            sign = *step;
        }
    }
    schedule.look().is_none()
}

/// How many places a new schedule has, steps, and how many takes these are.
type Steps = (u32, &'static [u8], u64);

/// Takes a new schedule through steps.
fn follows_new<S: Schedule>(alloc: Global, row: &Steps) -> bool {
    let (places, steps, takes) = *row;
    match S::prepare(alloc, places) {
        Ok(mut schedule) => follows(&mut schedule, places, steps) && schedule.takes() == takes,
        Err(_) => false,
    }
}

fn assert_follows<S: Schedule, R: Abort>(rt: &R, alloc: Global, rows: &[Steps]) {
    for (row, steps) in rows.iter().enumerate() {
        assert_row(rt, row, follows_new::<S>(alloc, steps));
    }
}

/// A sweep goes round and round.
static SWEEPS: [Steps; 5] = [
    (4, b"01+1+0+22301+3+223", 8),
    // A place that is added before the next one is looked at first.
    (10, b"0123456789+9+22+559", 13),
    // Places up to the last one taken wait for the next round.
    (10, b"0123456789+2+92+2+5+1+7+4457912", 17),
    // A round is ended first.
    (10, b"0123456789+88+3+9+1+89138", 15),
    // A place after the front is taken.
    (4, b"-2013", 4),
];

/// A worklist is first in, first out.
static WORKLISTS: [Steps; 2] = [(4, b"01+1+0+22310+3+2+332", 8), (4, b"-2013", 4)];

/// A sweep, in which an added place waits, costs four takes; then focus has fuel for sixteen, in which an added place
/// is the next one; and then a sweep again.
static NESTED: [Steps; 2] = [
    (
        4,
        b"01+0+1230+21+002+00+00+00+00+00+00+00+00+00+00+00+00+3+00+030",
        23,
    ),
    (4, b"-2301", 4),
];

#[test]
fn schedules_look_in_their_orders(rt: HostRuntime) {
    assert_follows::<Sweep, HostRuntime>(&rt, rt.alloc(), &SWEEPS);
    assert_follows::<Worklist, HostRuntime>(&rt, rt.alloc(), &WORKLISTS);
    assert_follows::<Nested, HostRuntime>(&rt, rt.alloc(), &NESTED);
}
