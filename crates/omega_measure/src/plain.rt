ghost use Rattle.std.specs.Prelude.{◌≡◌, ℕ, ◌<◌, length};

use crate::due::is_short;
use crate::shape::Shape;
use crate::table::MeasureTable;
use omega_game_values::{Game, Player, Refusal};
use omega_lift_laws::{allowances_are_least_sufficient, allowances_exceed};
use omega_lift_rows::{compare_at, raise_at};
use std::alloc::Global;
use std::cmp::Ordering;
use std::marker::Model;

/// A table that keeps the measures as rows of numbers, side by side.
pub struct PlainTable {
    shape: Shape,
    tops: Vec<bool>,
    entries: Vec<u32>,
}

impl Drop for PlainTable {
    fn drop(self) {
        let PlainTable {
            shape: _,
            tops: _,
            entries: _,
        } = self;
    }
}

impl Model for PlainTable {
    ghost use Rattle.omega_measure.specs.Table.{Content};

    ghost Value = { Content };

    ghost use Rattle.omega_measure.specs.private.layout.Plain.{AreRows, content_of};

    ghost view = { λ s. content_of s.shape s.tops.items s.entries.items };

    ghost invariant = { λ s. AreRows s.shape.player s.shape.priorities s.tops.items s.entries.items };
}

impl MeasureTable for PlainTable {
    ghost content = { λ table. table };

    fn prepare(alloc: Global, game: &Game, player: Player) -> Result<PlainTable, Refusal> {
        let shape = Shape::prepare(alloc, game, player)?;
        let cells = shape.len() * shape.width();
        let tops = vec![in alloc; false; shape.len()]?;
        let entries = vec![in alloc; 0u32; cells]?;
        Ok(PlainTable {
            shape,
            tops,
            entries,
        })
    }

    fn is_top(&self, place: u32) -> bool {
        self.tops[place as usize]
    }

    fn compare(&self, a: u32, b: u32, p: u32) -> Ordering {
        let width = self.shape.width();
        let kept = self.shape.kept_from(p);
        compare_at(
            &self.tops,
            &self.entries,
            width,
            kept,
            a as usize,
            b as usize,
        )
    }

    fn compare_for(&self, place: u32, a: u32, b: u32) -> Ordering {
        let width = self.shape.width();
        let kept = self.shape.entries_kept(place);
        compare_at(
            &self.tops,
            &self.entries,
            width,
            kept,
            a as usize,
            b as usize,
        )
    }

    fn due(&self, v: u32, w: u32) -> bool {
        let width = self.shape.width();
        let kept = self.shape.entries_kept(v);
        let order = compare_at(
            &self.tops,
            &self.entries,
            width,
            kept,
            v as usize,
            w as usize,
        );
        allowances_are_least_sufficient();
        allowances_exceed();
        is_short(order, self.tops[v as usize], self.shape.is_strict(v))
    }

    fn raise(&mut self, v: u32, w: u32) {
        let kept = self.shape.entries_kept(v);
        let strict = self.shape.is_strict(v);
        let limits = self.shape.limits();
        allowances_are_least_sufficient();
        raise_at(
            &mut self.tops,
            &mut self.entries,
            limits,
            kept,
            strict,
            v as usize,
            w as usize,
        );
    }

    fn set_top(&mut self, place: u32) {
        self.tops[place as usize] = true;
    }
}
