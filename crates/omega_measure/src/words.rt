ghost use Rattle.std.specs.Prelude.{◌≡◌, ◌≢◌, ◌↔◌, ℕ, ◌+◌, ◌-◌, ◌*◌, ◌/◌, ◌<◌, ◌≤◌, ◌^◌, [], ◌∷◌, ◌++◌, suc};
ghost use Rattle.std.specs.Prelude.{length, take, replicate, slice_index, slice_index_or, IsTrue};
ghost use Rattle.omega_measure.specs.private.layout.Field.{AreFields, IsInside, IsPackedRow, digit_in};
ghost use Rattle.omega_measure.specs.private.layout.Field.{digits_in, flag_in, front_order, limits_in};
ghost use Rattle.omega_measure.specs.private.layout.Packed.{HoldsAllowance};
ghost use Rattle.omega_lift_rows.specs.Rows.{IsLastBelow, WritesRow, row_of};

use crate::field::Field;
use omega_lift_rows::{copy_row, row};
use std::cmp::Ordering;

/// The field of the flag for top: the first bit of each row.
const TOP: Field = Field {
    word: 0,
    shift: 63,
    bits: 1,
    limit: 1,
};

/// Returns the number in `field` of a row.
fn digit(row: &[u64], field: Field) -> u64
    requires { IsInside (length row.now) field }
    ensures { result ≡ digit_in row.now field }
{
    (row[field.word as usize] >> field.shift) & ((1 << field.bits) - 1)
}

/// Compares two rows on the words before that of `field`, and on the bits of its word from the field up.
fn compare_rows(a: &[u64], b: &[u64], field: Field) -> Ordering
    requires first { IsInside (length a.now) field }
    requires second { IsInside (length b.now) field }
    ensures { result ≡ front_order field.word field.shift a.now b.now }
{
    let word = field.word as usize;
    let shift = field.shift;
    if word == 0 {
        return (a[0] >> shift).cmp(&(b[0] >> shift));
    }
    a[..word]
        .cmp(&b[..word])
        .then((a[word] >> shift).cmp(&(b[word] >> shift)))
}

/// Returns the last of the fields up to `kept` that holds less than its limit. The first field must hold less.
fn last_below(row: &[u64], fields: &[Field], kept: usize) -> usize
    requires within { kept < length fields.now }
    requires fields { AreFields (length row.now) fields.now }
    requires first { flag_in fields.now row.now < slice_index (limits_in fields.now) 0 }
    ensures { IsLastBelow (digits_in fields.now row.now) (limits_in fields.now) (suc kept) result }
{
    for at in (1..kept + 1).rev() {
        let field = fields[at];
        if digit(row, field) < u64::from(field.limit) {
            return at;
        }
    }
    0
}

/// Returns the word of `field` with `by` added to it from the field up, and with the bits after the field cleared.
fn front(row: &[u64], field: Field, by: u64) -> u64
    requires field { IsInside (length row.now) field }
    requires fits { (slice_index row.now field.word / 2 ^ field.shift + by) * 2 ^ field.shift < 2 ^ 64 }
    ensures { result ≡ (slice_index row.now field.word / 2 ^ field.shift + by) * 2 ^ field.shift }
{
    ((row[field.word as usize] >> field.shift) + by) << field.shift
}

/// Adds `by` to a row from `field` up, and clears all after that field.
fn raise_front(row: &mut [u64], field: Field, by: u64)
    requires field { IsInside (length row.old) field }
    requires fits { (slice_index row.old field.word / 2 ^ field.shift + by) * 2 ^ field.shift < 2 ^ 64 }
    ensures { let front = slice_index row.old field.word / 2 ^ field.shift + by in
        row.new ≡ take field.word row.old
        ++ (front * 2 ^ field.shift) ∷ replicate (length row.old - suc field.word) 0 }
{
    let word = field.word as usize;
    row[word] = front(row, field, by);
    row[word + 1..].fill(0);
}

/// Replaces a row below top by its allowance, compared on the first `kept` entries.
fn allow_words(row: &mut [u64], fields: &[Field], kept: usize, strict: bool)
    requires fields { AreFields (length row.old) fields.now }
    requires within { kept < length fields.now }
    requires packed { IsPackedRow fields.now row.old }
    requires below { flag_in fields.now row.old ≡ 0 }
    ensures { HoldsAllowance fields.now kept strict row.old row.new }
{
    if strict {
        let at = last_below(row, fields, kept);
        raise_front(row, fields[at], 1);
    } else {
        raise_front(row, fields[kept], 0);
    }
}

/// Returns the word of the allowance of a row below top that has one word, compared on the first `kept` entries.
fn allowed_word(row: &[u64], fields: &[Field], kept: usize, strict: bool) -> u64
    requires one { length row.now ≡ 1 }
    requires fields { AreFields (length row.now) fields.now }
    requires within { kept < length fields.now }
    requires packed { IsPackedRow fields.now row.now }
    requires below { flag_in fields.now row.now ≡ 0 }
    ensures { HoldsAllowance fields.now kept strict row.now (result ∷ []) }
{
    if strict {
        let at = last_below(row, fields, kept);
        front(row, fields[at], 1)
    } else {
        front(row, fields[kept], 0)
    }
}

/// Whether the flag for top is set in the row of `place`.
pub(crate) fn is_top_at(words: &[u64], size: usize, fields: &[Field], place: usize) -> bool
    requires row { place * size + size ≤ length words.now }
    requires fields { AreFields size fields.now }
    ensures { IsTrue result ↔ (flag_in fields.now (row_of size words.now place) ≢ 0) }
{
    digit(row(words, size, place), TOP) != 0
}

/// Compares the measures at `a` and `b` on the entries up to `field`; top is above all others.
pub(crate) fn compare_at(words: &[u64], size: usize, field: Field, a: usize, b: usize) -> Ordering
    requires first { a * size + size ≤ length words.now }
    requires second { b * size + size ≤ length words.now }
    requires field { IsInside size field }
    ensures { result
        ≡ front_order field.word field.shift (row_of size words.now a) (row_of size words.now b) }
{
    if size == 1 {
        return (words[a] >> field.shift).cmp(&(words[b] >> field.shift));
    }
    compare_rows(row(words, size, a), row(words, size, b), field)
}

/// Replaces the row of `place`, which is below top, by its allowance, compared on the first `kept` entries.
fn allow_at(
    words: &mut [u64],
    size: usize,
    fields: &[Field],
    kept: usize,
    strict: bool,
    place: usize,
)
    requires row { place * size + size ≤ length words.old }
    requires fields { AreFields size fields.now }
    requires within { kept < length fields.now }
    requires packed { IsPackedRow fields.now (row_of size words.old place) }
    requires below { flag_in fields.now (row_of size words.old place) ≡ 0 }
    ensures others { WritesRow size words.old words.new place (row_of size words.new place) }
    ensures allowance { HoldsAllowance fields.now kept strict
        (row_of size words.old place) (row_of size words.new place) }
{
    let start = place * size;
    allow_words(&mut words[start..start + size], fields, kept, strict);
}

/// Replaces the measure of `v` by the least measure that suffices towards that of `w`.
// Most tables have rows of one word, which have their own path. The other path is a call.
#[inline(always)]
pub(crate) fn raise_at(
    words: &mut [u64],
    size: usize,
    fields: &[Field],
    kept: usize,
    strict: bool,
    v: usize,
    w: usize,
)
    requires lifted { v * size + size ≤ length words.old }
    requires towards { w * size + size ≤ length words.old }
    requires fields { AreFields size fields.now }
    requires within { kept < length fields.now }
    requires packed { IsPackedRow fields.now (row_of size words.old w) }
    ensures others { WritesRow size words.old words.new v (row_of size words.new v) }
    ensures allowance { HoldsAllowance fields.now kept strict (row_of size words.old w)
        (row_of size words.new v) }
{
    if size == 1 {
        let towards = row(words, size, w);
        let word = if digit(towards, TOP) == 0 {
            allowed_word(towards, fields, kept, strict)
        } else {
            towards[0]
        };
        words[v] = word;
    } else {
        raise_row_at(words, size, fields, kept, strict, v, w);
    }
}

/// Replaces the measure of `v` in the same way, for rows of any number of words.
#[inline(never)]
fn raise_row_at(
    words: &mut [u64],
    size: usize,
    fields: &[Field],
    kept: usize,
    strict: bool,
    v: usize,
    w: usize,
)
    requires lifted { v * size + size ≤ length words.old }
    requires towards { w * size + size ≤ length words.old }
    requires fields { AreFields size fields.now }
    requires within { kept < length fields.now }
    requires packed { IsPackedRow fields.now (row_of size words.old w) }
    ensures others { WritesRow size words.old words.new v (row_of size words.new v) }
    ensures allowance { HoldsAllowance fields.now kept strict (row_of size words.old w)
        (row_of size words.new v) }
{
    let top = is_top_at(words, size, fields, w);
    copy_row(words, size, w, v);
    if !top {
        allow_at(words, size, fields, kept, strict, v);
    }
}
