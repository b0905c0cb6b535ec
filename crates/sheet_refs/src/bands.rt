// Bands of columns that hold the same rows, by their first columns. The rows of a column are those of the last band
// that begins at it or to the left of it.
ghost use Rattle.std.specs.Prelude.{◌≡◌, ◌≢◌, ◌+◌, ◌-◌, ◌≤◌, ◌<◌, ℕ, [], ◌++◌};
ghost use Rattle.std.specs.Prelude.{All, IfOk, IfSome, IsSome, IsTrue, MatchOption, OnErr, OnOk};
ghost use Rattle.std.specs.Ordering.{nat_cmp};
ghost use Rattle.std.specs.BTreeMap.{get};
ghost use Rattle.sheet_refs.specs.Bands.{AreFilled, GainsInBand, HaveRoom, StaysBand};
ghost use Rattle.sheet_refs.specs.Bands.{all_ranges, ranges_in, rows_at};
ghost use Rattle.sheet_refs.specs.Rectangles.{AreMaximalRuns, Joins};
ghost use Rattle.sheet_refs.specs.Runs.{HasRoom, HaveSameRanges, IsNextFrom, last_from};

use crate::cell::MAX_COLS;
use crate::column::Column;
use crate::memory::Memory;
use crate::range::Range;
use std::alloc::Global;
use std::collections::BTreeMap;

/// Bands by their first columns.
pub(crate) type Bands = BTreeMap<u32, Column>;

/// The rows of a column; None where no band begins at it or to the left of it.
pub(crate) fn band_at(bands: &Bands, col: u32) -> Option<&Column>
    ensures { MatchOption result (rows_at bands.now col ≡ [])
        (λ column. column.now ≡ rows_at bands.now col) }
{
    let last = bands.range(..=col).next_back()?;
    Some(last.1)
}

// The first column of the first band that begins at this column or to the right of it.
fn next_band(bands: &Bands, col: u32) -> Option<u32>
    ensures { IsNextFrom (get nat_cmp bands.now) col result }
{
    let (first, _) = bands.range(col..).next()?;
    Some(*first)
}

/// The last column up to which, and to the last that is asked for, all have the rows of this one.
pub(crate) fn last_same(bands: &Bands, col: u32, last: u32) -> u32
    requires { (1 ≤ col) × (col ≤ last) × (last ≤ 16384) }
    ensures within { (col ≤ result) × (result ≤ last) }
    ensures same { (other : ℕ) → col ≤ other → other ≤ result →
        rows_at bands.now other ≡ rows_at bands.now col }
{
    match next_band(bands, col + 1) {
        Some(next) => last.min(next - 1),
        None => last,
    }
}

// Has a band begin at a column, with the rows that the column has. Each band that there is stays. It takes a step for
// each run of the band that is split.
fn begin_at(bands: &mut Bands, alloc: Global, col: u32) -> Result<(), Memory>
    requires { 1 ≤ col }
    ensures begins { OnOk result (IsSome (get nat_cmp bands.new col)) }
    ensures kept { (other : ℕ) → IsSome (get nat_cmp bands.old other) →
        IsSome (get nat_cmp bands.new other) }
    ensures same { (other : ℕ) → rows_at bands.new other ≡ rows_at bands.old other }
{
    if bands.contains_key(&col) {
        return Ok(());
    }
    let column = match band_at(bands, col) {
        Some(column) => column.copy()?,
        None => Column::new(alloc),
    };
    bands.insert(col, column)?;
    Ok(())
}

// Whether a band begins at the left column and the next one at the end.
fn is_one_band(bands: &Bands, left: u32, end: u32) -> bool
    requires { left < end }
    ensures { IsTrue result → IsSome (get nat_cmp bands.now left)
        × IsNextFrom (get nat_cmp bands.now) (left + 1) (Some end) }
{
    bands.contains_key(&left) && next_band(bands, left + 1) == Some(end)
}

// Joins the rows to the band that begins at a column, if one does.
fn join_at(bands: &mut Bands, col: u32, first: u32, last: u32) -> Result<(), Memory>
    requires { (1 ≤ first) × (first ≤ last) × (last ≤ 1048576) }
    ensures gained { OnOk result
        (GainsInBand first last (get nat_cmp bands.old col) (get nat_cmp bands.new col)) }
    ensures same { OnErr result (get nat_cmp bands.new col ≡ get nat_cmp bands.old col) }
    ensures others { (other : ℕ) → other ≢ col → get nat_cmp bands.new other ≡ get nat_cmp bands.old other }
{
    match bands.get_mut(&col) {
        Some(column) => column.join(first, last),
        None => Ok(()),
    }
}

// Takes the memory that a fill of the band that begins at a column, if one does, from this row on needs.
fn reserve_at(bands: &mut Bands, col: u32, row: u32) -> Result<(), Memory>
    requires { (1 ≤ row) × (row ≤ 1048576) }
    ensures same { StaysBand (get nat_cmp bands.old col) (get nat_cmp bands.new col) }
    ensures others { (other : ℕ) → other ≢ col → get nat_cmp bands.new other ≡ get nat_cmp bands.old other }
    ensures room { OnOk result
        (IfSome (get nat_cmp bands.new col) (λ runs. HasRoom (last_from runs) row)) }
{
    match bands.get_mut(&col) {
        Some(column) => column.reserve(row),
        None => Ok(()),
    }
}

// Joins the rows to the band that begins at a column, for which room was reserved, if one does.
fn fill_at(bands: &mut Bands, col: u32, first: u32, last: u32)
    requires rows { (1 ≤ first) × (first ≤ last) × (last ≤ 1048576) }
    requires room { IfSome (get nat_cmp bands.old col) (λ runs. HasRoom (last_from runs) first) }
    ensures gained { GainsInBand first last (get nat_cmp bands.old col) (get nat_cmp bands.new col) }
    ensures others { (other : ℕ) → other ≢ col → get nat_cmp bands.new other ≡ get nat_cmp bands.old other }
{
    if let Some(column) = bands.get_mut(&col) {
        column.fill(first, last);
    }
}

// Takes the memory that a fill of the bands that begin at these columns, from this row on, needs.
fn reserve(bands: &mut Bands, left: u32, right: u32, row: u32) -> Result<(), Memory>
    requires cols { (left ≤ right) × (right ≤ 16384) }
    requires row { (1 ≤ row) × (row ≤ 1048576) }
    ensures same { (col : ℕ) → StaysBand (get nat_cmp bands.old col) (get nat_cmp bands.new col) }
    ensures room { OnOk result (HaveRoom (get nat_cmp bands.new) left (right + 1) row) }
{
    let mut col = left;
    while let Some(next) = next_band(bands, col) {
        if next > right {
            break;
        }
        reserve_at(bands, next, row)?;
        col = next + 1;
    }
    Ok(())
}

// Joins the rows to each of the bands that begin at these columns, for which room was reserved.
fn fill(bands: &mut Bands, left: u32, right: u32, first: u32, last: u32)
    requires cols { (left ≤ right) × (right ≤ 16384) }
    requires rows { (1 ≤ first) × (first ≤ last) × (last ≤ 1048576) }
    requires room { HaveRoom (get nat_cmp bands.old) left (right + 1) first }
    ensures { AreFilled (get nat_cmp bands.old) (get nat_cmp bands.new) left (right + 1) first last }
{
    let mut col = left;
    while let Some(next) = next_band(bands, col) {
        if next > right {
            break;
        }
        fill_at(bands, next, first, last);
        col = next + 1;
    }
}

/// Adds the cells of a range. After Memory the runs of all columns are as they were.
pub(crate) fn add_rows(bands: &mut Bands, alloc: Global, range: Range) -> Result<(), Memory>
    ensures joined { OnOk result (Joins (all_ranges (rows_at bands.old)) (all_ranges (rows_at bands.new)) range) }
    ensures err { OnErr result (all_ranges (rows_at bands.new) ≡ all_ranges (rows_at bands.old)) }
{
    let left = range.head().col();
    let right = range.tail().col();
    let first = range.head().row();
    let last = range.tail().row();
    if is_one_band(bands, left, right + 1) {
        return join_at(bands, left, first, last);
    }
    begin_at(bands, alloc, left)?;
    begin_at(bands, alloc, right + 1)?;
    reserve(bands, left, right, first)?;
    fill(bands, left, right, first, last);
    Ok(())
}

// Whether a column and the one before it have the same one run.
fn goes_on_at(bands: &Bands, col: u32) -> bool
    requires { 1 ≤ col }
    ensures { IsTrue result → rows_at bands.now col ≡ rows_at bands.now (col - 1) }
{
    let Some(before) = band_at(bands, col - 1) else {
        return false;
    };
    let Some(here) = band_at(bands, col) else {
        return false;
    };
    let Some(run) = before.one_run() else {
        return false;
    };
    let Some(next) = here.one_run() else {
        return false;
    };
    run.0 == next.0 && run.1 == next.1
}

// Joins the band that begins at a column with the one before it, where both have the same one run.
fn unite_at(bands: &mut Bands, col: u32)
    requires { 1 ≤ col }
    ensures { (other : ℕ) → rows_at bands.new other ≡ rows_at bands.old other }
{
    if goes_on_at(bands, col) {
        bands.remove(&col);
    }
}

/// Joins the bands that begin at these columns each with the one before it, where both have the same one run. Columns
/// with more runs aren't compared, so that it takes no step for each run. The rows of all columns stay.
pub(crate) fn unite(bands: &mut Bands, left: u32, end: u32)
    requires { (1 ≤ left) × (left ≤ end) × (end ≤ 16385) }
    ensures { (other : ℕ) → rows_at bands.new other ≡ rows_at bands.old other }
{
    let mut col = left;
    while let Some(next) = next_band(bands, col) {
        if next > end {
            break;
        }
        unite_at(bands, next);
        col = next + 1;
    }
}

// Adds the runs of columns that have the rows of the first one to a list of those to the left of them. It looks at
// each of the columns where there is a run.
fn push_band(bands: &Bands, col: u32, last: u32, ranges: &mut Vec<Range>) -> Result<(), Memory>
    requires cols { (1 ≤ col) × (col ≤ last) × (last ≤ 16384) }
    requires same { (other : ℕ) → col ≤ other → other ≤ last →
        rows_at bands.now other ≡ rows_at bands.now col }
    requires runs { AreMaximalRuns ranges.old.items }
    requires before { All (λ range. range.tail.col < col) ranges.old.items }
    ensures pushed { OnOk result (ranges.new.items
        ≡ ranges.old.items ++ ranges_in (rows_at bands.now) col (last + 1 - col)) }
    ensures runs { OnOk result (AreMaximalRuns ranges.new.items) }
    ensures before { OnOk result (All (λ range. range.tail.col < last + 1) ranges.new.items) }
{
    let Some(column) = band_at(bands, col) else {
        return Ok(());
    };
    if column.is_empty() {
        return Ok(());
    }
    for place in col..last + 1 {
        column.push_ranges(place, ranges)?;
    }
    Ok(())
}

/// The runs of all columns, by column and then by row.
pub(crate) fn all_runs(bands: &Bands, alloc: Global) -> Result<Vec<Range>, Memory>
    ensures listed { IfOk result (λ runs. runs.items ≡ all_ranges (rows_at bands.now)) }
    ensures runs { IfOk result (λ runs. AreMaximalRuns runs.items) }
{
    let mut runs = Vec::new(alloc);
    let mut col = 1;
    while col <= MAX_COLS {
        let last = last_same(bands, col, MAX_COLS);
        push_band(bands, col, last, &mut runs)?;
        col = last + 1;
    }
    Ok(runs)
}
