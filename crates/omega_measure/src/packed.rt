ghost use Rattle.std.specs.Prelude.{◌≡◌, ℕ, ◌+◌, ◌<◌, length};
ghost use Rattle.omega_measure.specs.private.layout.Field.{last_field};

use crate::due::is_short;
use crate::field::Field;
use crate::fields::fields_of;
use crate::shape::Shape;
use crate::table::MeasureTable;
use crate::words::{compare_at, is_top_at, raise_at};
use omega_game_values::{Game, Player, Refusal};
use omega_lift_laws::{allowances_are_least_sufficient, allowances_exceed};
use std::alloc::Global;
use std::cmp::Ordering;
use std::marker::Model;

/// A table that packs each measure in words of 64 bits: one bit for top, and then the entries, the one for the greatest
/// priority first. Each entry has as many bits as its limit needs, and none lies across two words.
pub struct PackedTable {
    shape: Shape,
    fields: Vec<Field>,
    size: usize,
    words: Vec<u64>,
}

impl Drop for PackedTable {
    fn drop(self) {
        let PackedTable {
            shape: _,
            fields: _,
            size: _,
            words: _,
        } = self;
    }
}

impl Model for PackedTable {
    ghost use Rattle.omega_measure.specs.Table.{Content};

    ghost Value = { Content };

    ghost use Rattle.omega_measure.specs.private.layout.Packed.{ArePackedRows, packed_content};

    ghost view = { λ s. packed_content s.shape s.fields.items s.size s.words.items };

    ghost invariant = { λ s. ArePackedRows s.shape s.fields.items s.size s.words.items };
}

impl MeasureTable for PackedTable {
    ghost content = { λ table. table };

    fn prepare(alloc: Global, game: &Game, player: Player) -> Result<PackedTable, Refusal> {
        let shape = Shape::prepare(alloc, game, player)?;
        let fields = fields_of(alloc, shape.limits())?;
        let size = row_size(&fields);
        let words = vec![in alloc; 0u64; shape.len() * size]?;
        Ok(PackedTable {
            shape,
            fields,
            size,
            words,
        })
    }

    #[inline(always)]
    fn is_top(&self, place: u32) -> bool {
        is_top_at(&self.words, self.size, &self.fields, place as usize)
    }

    #[inline(always)]
    fn compare(&self, a: u32, b: u32, p: u32) -> Ordering {
        let field = self.fields[self.shape.kept_from(p)];
        compare_at(&self.words, self.size, field, a as usize, b as usize)
    }

    #[inline(always)]
    fn compare_for(&self, place: u32, a: u32, b: u32) -> Ordering {
        let field = self.fields[self.shape.entries_kept(place)];
        compare_at(&self.words, self.size, field, a as usize, b as usize)
    }

    #[inline(always)]
    fn due(&self, v: u32, w: u32) -> bool {
        let field = self.fields[self.shape.entries_kept(v)];
        let order = compare_at(&self.words, self.size, field, v as usize, w as usize);
        let top = is_top_at(&self.words, self.size, &self.fields, v as usize);
        allowances_are_least_sufficient();
        allowances_exceed();
        is_short(order, top, self.shape.is_strict(v))
    }

    #[inline(always)]
    fn raise(&mut self, v: u32, w: u32) {
        let kept = self.shape.entries_kept(v);
        let strict = self.shape.is_strict(v);
        let size = self.size;
        allowances_are_least_sufficient();
        raise_at(
            &mut self.words,
            size,
            &self.fields,
            kept,
            strict,
            v as usize,
            w as usize,
        );
    }

    fn set_top(&mut self, place: u32) {
        let size = self.size;
        // A measure has no entry to be raised among none, so its allowance on none is top.
        raise_at(
            &mut self.words,
            size,
            &self.fields,
            0,
            true,
            place as usize,
            place as usize,
        );
    }
}

/// Returns the number of words of a row.
fn row_size(fields: &[Field]) -> usize
    requires { 0 < length fields.now }
    ensures { result ≡ (last_field fields.now).word + 1 }
{
    fields[fields.len() - 1].word as usize + 1
}
