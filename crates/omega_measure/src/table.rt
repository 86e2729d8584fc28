ghost use Rattle.std.specs.Prelude.{◌≡◌, ◌↔◌, ◌<◌, false, length, slice_index};
ghost use Rattle.std.specs.Prelude.{IsTrue, IsOk, IfOk, IfErr, None};
ghost use Rattle.omega_game_values.specs.Game.{priorities};
ghost use Rattle.omega_lift_laws.specs.Allowance.{measure_at};
ghost use Rattle.omega_lift_laws.specs.Measure.{compare_from};
ghost use Rattle.omega_measure.specs.Table.{Content, Exceeds, IsPrepareRefusal, Raises};
ghost use Rattle.omega_measure.specs.Table.{is_too_wide, with_measure, zero_content};

use omega_game_values::{Game, Player, Refusal};
use std::alloc::Global;
use std::cmp::Ordering;

/// A table with a measure for each place of a game: top, or an entry for each losing priority in use (Jurdziński 2000).
/// Only `prepare` requests memory, so a table takes there all that it needs.
pub trait MeasureTable: Drop {
    /// The player, the nodes' priorities and the measures, in whatever form they are kept.
    ghost content: { Self → Content };

    /// Makes the table in which every entry of every measure is 0. Fails with [TaskFault::TooWide] if nodes times
    /// losing priorities in use are over `MOST_CELLS`.
    fn prepare(alloc: Global, game: &Game, player: Player) -> Result<Self, Refusal>
    where
        Self: Sized,
        ensures zero { IfOk result
            (λ table. content table ≡ zero_content player (priorities game.now)) }
        ensures fits { IsOk result → is_too_wide player (priorities game.now) ≡ false }
        ensures refused { IfErr result (IsPrepareRefusal player (priorities game.now)) };

    /// Whether the measure at `place` is top.
    fn is_top(&self, place: u32) -> bool
        requires { place < length (content self.now).measures }
        ensures { IsTrue result ↔ (measure_at (content self.now).measures place ≡ None) };

    /// Compares the measures at `a` and `b` on the entries for priorities at least `p`; top is above all others. Finds
    /// the number of these entries by a search among the losing priorities.
    fn compare(&self, a: u32, b: u32, p: u32) -> Ordering
        requires first { a < length (content self.now).measures }
        requires second { b < length (content self.now).measures }
        ensures { let table = content self.now in
            result ≡ compare_from table.player table.priorities p
            (measure_at table.measures a) (measure_at table.measures b) };

    /// Compares the measures at `a` and `b` on the entries for priorities at least that of `place`. The number of these
    /// entries was found when the table was made.
    fn compare_for(&self, place: u32, a: u32, b: u32) -> Ordering
        requires at { place < length (content self.now).measures }
        requires first { a < length (content self.now).measures }
        requires second { b < length (content self.now).measures }
        ensures { let table = content self.now in
            result ≡ compare_from table.player table.priorities (slice_index table.priorities place)
            (measure_at table.measures a) (measure_at table.measures b) };

    /// Whether the allowance of `v` towards `w` exceeds the measure of `v`.
    fn due(&self, v: u32, w: u32) -> bool
        requires lifted { v < length (content self.now).measures }
        requires towards { w < length (content self.now).measures }
        ensures { IsTrue result ↔ Exceeds (content self.now) v w };

    /// Replaces the measure of `v` by its allowance towards `w`.
    fn raise(&mut self, v: u32, w: u32)
        requires lifted { v < length (content self.old).measures }
        requires towards { w < length (content self.old).measures }
        requires due { Exceeds (content self.old) v w }
        ensures { Raises (content self.old) v w (content self.new) };

    /// Replaces the measure of `place` by top.
    fn set_top(&mut self, place: u32)
        requires { place < length (content self.old).measures }
        ensures { content self.new ≡ with_measure (content self.old) place None };
}
