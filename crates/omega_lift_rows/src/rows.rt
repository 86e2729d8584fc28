ghost use Rattle.std.specs.Prelude.{◌≡◌, ◌≢◌, ℕ, ◌+◌, ◌*◌, ◌<◌, ◌≤◌, false, true, Some, None};
ghost use Rattle.std.specs.Prelude.{length, take, slice_index, slice_index_or, IsTrue, MatchOption};
ghost use Rattle.omega_lift_laws.specs.Least.{raised};
ghost use Rattle.omega_lift_rows.specs.Rows.{AreAtLimits, IsLastBelow, WritesMeasure, WritesRow};
ghost use Rattle.omega_lift_rows.specs.Rows.{allowance_of, allowed, compare_kept, measure_in, row_of};

use std::cmp::Ordering;

/// Returns the row of `place`.
pub fn row<T>(entries: &[T], width: usize, place: usize) -> &[T]
    requires { place * width + width ≤ length entries.now }
    ensures { result.now ≡ row_of width entries.now place }
{
    let start = place * width;
    &entries[start..start + width]
}

/// Compares the measures at `a` and `b` on their first `kept` entries; top is above all others.
pub fn compare_at(
    tops: &[bool],
    entries: &[u32],
    width: usize,
    kept: usize,
    a: usize,
    b: usize,
) -> Ordering
    requires first { a < length tops.now }
    requires second { b < length tops.now }
    requires cells { length entries.now ≡ length tops.now * width }
    requires within { kept ≤ width }
    ensures { result ≡ compare_kept kept
        (measure_in width tops.now entries.now a)
        (measure_in width tops.now entries.now b) }
{
    match (tops[a], tops[b]) {
        (true, true) => Ordering::Equal,
        (true, false) => Ordering::Greater,
        (false, true) => Ordering::Less,
        (false, false) => {
            let left = row(entries, width, a);
            let right = row(entries, width, b);
            left[..kept].cmp(&right[..kept])
        }
    }
}

/// Returns the index of the last of the first `kept` entries that is below its limit.
fn last_below(row: &[u32], limits: &[u32], kept: usize) -> Option<usize>
    requires rows { length row.now ≡ length limits.now }
    requires within { kept ≤ length row.now }
    ensures { MatchOption result (AreAtLimits row.now limits.now 0 kept)
        (IsLastBelow row.now limits.now kept) }
{
    for at in (0..kept).rev() {
        if row[at] < limits[at] {
            return Some(at);
        }
    }
    None
}

/// Adds one to the last of the first `kept` entries that is below its limit, and clears all after it. Returns false if
/// there is no such entry.
fn raise_row(row: &mut [u32], limits: &[u32], kept: usize) -> bool
    requires rows { length row.old ≡ length limits.now }
    requires within { kept ≤ length row.old }
    ensures raised { IsTrue result → raised kept limits.now row.old ≡ Some row.new }
    ensures full { result ≡ false → raised kept limits.now row.old ≡ None }
{
    match last_below(row, limits, kept) {
        Some(at) => {
            row[at] += 1;
            row[at + 1..].fill(0);
            true
        }
        None => false,
    }
}

/// Replaces a row by its allowance, compared on the first `kept` entries. Returns false if the allowance is top.
fn allow_row(row: &mut [u32], limits: &[u32], kept: usize, strict: bool) -> bool
    requires rows { length row.old ≡ length limits.now }
    requires within { kept ≤ length row.old }
    ensures below { IsTrue result → allowed strict kept limits.now row.old ≡ Some row.new }
    ensures top { result ≡ false → allowed strict kept limits.now row.old ≡ None }
{
    if strict {
        return raise_row(row, limits, kept);
    }
    row[kept..].fill(0);
    true
}

/// Replaces the row of `place` by its allowance, compared on the first `kept` entries. Returns false if the allowance
/// is top.
fn allow_at(entries: &mut [u32], limits: &[u32], kept: usize, strict: bool, place: usize) -> bool
    requires row { place * length limits.now + length limits.now ≤ length entries.old }
    requires within { kept ≤ length limits.now }
    ensures below { let width = length limits.now in
        IsTrue result → allowed strict kept limits.now (row_of width entries.old place)
        ≡ Some (row_of width entries.new place) }
    ensures top { result ≡ false
        → allowed strict kept limits.now (row_of (length limits.now) entries.old place) ≡ None }
    ensures others { let width = length limits.now in
        WritesRow width entries.old entries.new place (row_of width entries.new place) }
{
    let width = limits.len();
    let start = place * width;
    allow_row(&mut entries[start..start + width], limits, kept, strict)
}

/// Copies the row of `from` over the row of `to`.
pub fn copy_row<T: Copy>(entries: &mut [T], width: usize, from: usize, to: usize)
    requires source { from * width + width ≤ length entries.old }
    requires target { to * width + width ≤ length entries.old }
    ensures { WritesRow width entries.old entries.new to (row_of width entries.old from) }
{
    let start = from * width;
    entries.copy_within(start..start + width, to * width);
}

/// Replaces the measure of `v`, which is below top, by the least measure that suffices towards that of `w`.
pub fn raise_at(
    tops: &mut [bool],
    entries: &mut [u32],
    limits: &[u32],
    kept: usize,
    strict: bool,
    v: usize,
    w: usize,
)
    requires lifted { v < length tops.old }
    requires towards { w < length tops.old }
    requires below_top { slice_index_or tops.old v true ≡ false }
    requires cells { length entries.old ≡ length tops.old * length limits.now }
    requires within { kept ≤ length limits.now }
    ensures { let width = length limits.now in
        let allowance = allowance_of strict kept limits.now (measure_in width tops.old entries.old w) in
        WritesMeasure width tops.old entries.old tops.new entries.new v allowance }
{
    if tops[w] {
        tops[v] = true;
        return;
    }
    copy_row(entries, limits.len(), w, v);
    if !allow_at(entries, limits, kept, strict, v) {
        tops[v] = true;
    }
}
