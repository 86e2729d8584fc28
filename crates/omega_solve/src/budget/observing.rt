ghost use Rattle.std.specs.Prelude.{◌≡◌, ℕ, ◌<◌, false};
ghost use Rattle.omega_solve.specs.budget.Observing.{lifts_between_reports};

use omega_game_values::Player;

/// The number of lifts that the program makes from one report to the next.
pub const LIFTS_BETWEEN_REPORTS: u64 = 67_108_864;

/// How far a run of a solver has come.
#[derive(Clone, Copy, Debug, PartialEq, Eq)]
pub struct Progress {
    /// The player for whom the game is solved.
    pub player: Player,
    /// The number of lifts made so far.
    pub lifts: u64,
    /// The most lifts that the run can make: the bound of the game or, if it is less, the budget.
    pub most: u64,
}

/// A way to report runs to an observer while they last. The observer is passed to each call and not kept here.
pub trait Reporter<L> {
    ghost use Rattle.omega_solve.specs.declared.budget.observing.Progress.{Progress};

    /// The number of lifts from one report to the next.
    ghost pace: { Self → ℕ };

    /// How a report changes the observer.
    ghost tells: { Self → Progress → L → L → Type 0 };

    /// Returns the number of lifts from one report to the next.
    fn every(&self) -> u64
        ensures pace { result ≡ pace self.now }
        ensures some { 0 < result };

    /// Reports to `observer` how far a run has come.
    fn report(&self, observer: &mut L, progress: Progress)
        ensures { tells self.now progress observer.old observer.new };

    /// Whether reports may change the observer. If not, none needs to be made.
    fn listens(&self) -> bool
        ensures { result ≡ false → (progress : Progress) (observer : L)
            → tells self.now progress observer observer }
    {
        true
    }
}

/// No observer. Budgets are dealt out all the same, so that a run makes the same lifts whether it is reported or not.
pub struct NoObserver;

impl<L> Reporter<L> for NoObserver {
    ghost pace = { λ _. lifts_between_reports };

    ghost tells = { λ _ _ before after. after ≡ before };

    fn every(&self) -> u64 {
        LIFTS_BETWEEN_REPORTS
    }

    fn report(&self, _observer: &mut L, _progress: Progress) {}

    fn listens(&self) -> bool {
        false
    }
}
