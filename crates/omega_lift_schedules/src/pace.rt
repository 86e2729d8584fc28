//! When a nested schedule sweeps over the positions, and when it stays with the least.

/// Sweeps and focus in turn. A sweep goes over the pending positions from the least to the greatest, and leaves to the
/// next sweep what becomes pending among the positions that it passed. In focus the least pending position is always
/// taken, as long as there is fuel.
///
/// So a short cycle counts to top in focus while the other positions are pending, and a region that must rise together
/// does so in sweeps. Each goes on in proportion to what the other took. Both grow, so that a long focus is not
/// disturbed. Only safety is proved: numbers that would wrap stay as they are.
pub struct Pace {
    /// The place at which to look for the next position.
    pub cursor: usize,
    /// The place at which the next sweep begins: the least position that this sweep left to it.
    pub low: usize,
    /// The number of takes left to focus; zero in a sweep.
    fuel: u64,
    /// The cost of the sweeps since the last focus.
    spent: u64,
    /// The cost that these sweeps may have before the next focus.
    quota: u64,
    /// Whether the position taken last was taken in focus.
    in_focus: bool,
    /// How often in a row the position taken last was taken again.
    repeats: u64,
}

impl Drop for Pace {
    fn drop(self) {
        let Pace {
            cursor: _,
            low: _,
            fuel: _,
            spent: _,
            quota: _,
            in_focus: _,
            repeats: _,
        } = self;
    }
}

/// A focus, and the sweeps after it, may each take this many times what the sweeps before them took.
const GROWTH: u64 = 4;

/// How often in a row a sweep takes a position again.
const MOST_REPEATS: u64 = 64;

/// The number of positions passed over that cost a sweep as much as a take.
const POSITIONS_PER_TAKE: usize = 512;

impl Pace {
    /// Begins with a sweep over all positions.
    pub fn new() -> Pace {
        Pace {
            cursor: 0,
            low: usize::MAX,
            fuel: 0,
            spent: 0,
            quota: 0,
            in_focus: false,
            repeats: 0,
        }
    }

    /// Goes on after `position`, which is taken. A position before the cursor is the first of another sweep or of a
    /// focus.
    #[inline(always)]
    pub fn take(&mut self, position: usize) {
        if position < self.cursor {
            self.turn();
        }
        self.in_focus = self.fuel > 0;
        if self.in_focus {
            self.fuel -= 1;
        } else {
            let passed = position.saturating_sub(self.cursor) / POSITIONS_PER_TAKE;
            self.spent = self.spent.saturating_add(1 + passed as u64);
        }
        self.cursor = position.saturating_add(1);
        self.repeats = 0;
    }

    /// Ends a sweep or a focus after which nothing is pending.
    fn turn(&mut self) {
        self.cursor = self.low;
        self.low = usize::MAX;
        if self.spent >= self.quota {
            self.fuel = self.spent.saturating_mul(GROWTH);
            self.quota = self.fuel;
            self.spent = 0;
        }
    }

    /// Goes back to `position`, which was added, at once or in the next sweep.
    #[inline(always)]
    pub fn add(&mut self, position: usize) {
        if position >= self.cursor {
            return;
        }
        if self.in_focus {
            self.cursor = position;
        } else {
            self.low = self.low.min(position);
        }
    }

    /// Decides whether the position taken last is taken again at once.
    #[inline(always)]
    pub fn repeat(&mut self) -> bool {
        if self.in_focus {
            let more = self.fuel > 0;
            self.fuel = self.fuel.saturating_sub(1);
            return more;
        }
        self.spent = self.spent.saturating_add(1);
        self.repeats = self.repeats.saturating_add(1);
        self.repeats <= MOST_REPEATS
    }
}
