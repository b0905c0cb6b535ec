ghost use Rattle.std.specs.Bool.{OnTrue, OnFalse};
ghost use Rattle.std.specs.Prelude.{IfOk, IfSome, IsTrue, ◌↔◌, ◌++◌, ◌∷◌, ◌<◌, ◌≡◌, ℕ};
ghost use Rattle.std.specs.Prelude.{◌+◌, ◌-◌, ◌≤◌, [], Some, None, OnOk, OnErr};
ghost use Rattle.std.specs.Ordering.{nat_cmp};
ghost use Rattle.std.specs.BTreeMap.{get, IsOrdered, IsUnchanged};
ghost use Rattle.sheet_refs.specs.Runs.{IsColumn, Holds, HoldsAll, HoldsNone, IsLastUpTo};
ghost use Rattle.sheet_refs.specs.Runs.{IsNextFrom, IsRunAt, IsStart, IsSpan};
ghost use Rattle.sheet_refs.specs.Runs.{HasRoom, SameRows, RowsJoin, HasRow, GainsRows, AreGaps};
ghost use Rattle.sheet_refs.specs.Runs.{column_ranges, HaveSameRanges, last_from, strip};
ghost use Rattle.sheet_refs.specs.Rectangles.{AreMaximalRuns};

use crate::cell::Cell;
use crate::memory::Memory;
use crate::range::Range;
use std::alloc::Global;
use std::collections::BTreeMap;
use std::marker::Model;

// The last run that begins at this row or above it. A run may be one that only keeps room.
fn last_up_to(runs: &BTreeMap<u32, u32>, row: u32) -> Option<(u32, u32)>
    ensures { IsLastUpTo (get nat_cmp runs.now) row result }
{
    let (first, last) = runs.range(..=row).next_back()?;
    Some((*first, *last))
}

// The first row of the first run that begins at this row or below it.
fn next_from(runs: &BTreeMap<u32, u32>, row: u32) -> Option<u32>
    ensures next { IsNextFrom (get nat_cmp runs.now) row result }
    ensures ordered { IsOrdered nat_cmp runs.now }
{
    let (first, _) = runs.range(row..).next()?;
    Some(*first)
}

// The run that holds the row, if one does.
fn run_at(runs: &BTreeMap<u32, u32>, row: u32) -> Option<(u32, u32)>
    requires { IsColumn runs.now }
    ensures { IsRunAt (get nat_cmp runs.now) row result }
{
    let run = last_up_to(runs, row)?;
    if row <= run.1 { Some(run) } else { None }
}

// The first row of the run that is to hold the row.
fn start_of(runs: &BTreeMap<u32, u32>, row: u32) -> u32
    requires spaced { IsColumn runs.now }
    requires row { 1 ≤ row }
    ensures { IsStart (get nat_cmp runs.now) row result }
{
    match run_at(runs, row - 1) {
        Some((first, _)) => first,
        None => row,
    }
}

// Where the run that is to hold the rows begins and ends, and the first row of the last run that it covers. One
// look-up tells, but where a run begins behind the first row.
fn span_of(runs: &BTreeMap<u32, u32>, first: u32, last: u32) -> (u32, u32, Option<u32>)
    requires spaced { IsColumn runs.now }
    requires rows { (1 ≤ first) × (first ≤ last) × (last ≤ 1048576) }
    ensures { IsSpan (get nat_cmp runs.now) first last result.0 result.1 result.2 }
{
    let Some(run) = last_up_to(runs, last + 1) else {
        return (first, last, None);
    };
    if run.1 + 1 < first {
        return (first, last, None);
    }
    let end = run.1.max(last);
    if run.0 <= first {
        return (run.0, end, None);
    }
    (start_of(runs, first), end, Some(run.0))
}

// Puts a run without rows where the run that is to hold the row begins, if no run begins there.
fn reserve(runs: &mut BTreeMap<u32, u32>, row: u32) -> Result<(), Memory>
    requires spaced { IsColumn runs.old }
    requires row { (1 ≤ row) × (row ≤ 1048576) }
    ensures spaced { IsColumn runs.new }
    ensures same { SameRows (get nat_cmp runs.old) (get nat_cmp runs.new) }
    ensures same_ranges { HaveSameRanges runs.old.entries runs.new.entries }
    ensures room { OnOk result (HasRoom (get nat_cmp runs.new) row) }
    ensures err { OnErr result (IsUnchanged runs.old runs.new) }
{
    let start = start_of(runs, row);
    if !runs.contains_key(&start) {
        runs.insert(start, start - 1)?;
    }
    Ok(())
}

// Takes out the runs that begin at these rows.
fn clear(runs: &mut BTreeMap<u32, u32>, from: u32, to: u32)
    ensures cleared { (q : ℕ) → from ≤ q → q ≤ to → get nat_cmp runs.new q ≡ None }
    ensures above { (q : ℕ) → q < from → get nat_cmp runs.new q ≡ get nat_cmp runs.old q }
    ensures below { (q : ℕ) → to < q → get nat_cmp runs.new q ≡ get nat_cmp runs.old q }
    ensures ordered { IsOrdered nat_cmp runs.new }
{
    while let Some(first) = next_from(runs, from) {
        if first > to {
            break;
        }
        runs.remove(&first);
    }
}

// Takes out the runs that begin at these rows, one of them at the last.
fn clear_to(runs: &mut BTreeMap<u32, u32>, from: u32, to: u32)
    requires { from ≤ to }
    ensures cleared { (q : ℕ) → from ≤ q → q ≤ to → get nat_cmp runs.new q ≡ None }
    ensures above { (q : ℕ) → q < from → get nat_cmp runs.new q ≡ get nat_cmp runs.old q }
    ensures below { (q : ℕ) → to < q → get nat_cmp runs.new q ≡ get nat_cmp runs.old q }
    ensures ordered { IsOrdered nat_cmp runs.new }
{
    runs.remove(&to);
    if from < to {
        clear(runs, from, to - 1);
    }
}

// Joins the rows to those that are held, in one run with those that touch them. It takes no memory where a run
// begins at the row at which this one is to begin.
fn join(runs: &mut BTreeMap<u32, u32>, first: u32, last: u32) -> Result<(), Memory>
    requires spaced { IsColumn runs.old }
    requires rows { (1 ≤ first) × (first ≤ last) × (last ≤ 1048576) }
    ensures spaced { IsColumn runs.new }
    ensures joined { OnOk result
        (RowsJoin (get nat_cmp runs.old) (get nat_cmp runs.new) first last) }
    ensures err { OnErr result (IsUnchanged runs.old runs.new) }
    ensures room { OnErr result (¬ HasRoom (get nat_cmp runs.old) first) }
{
    let (start, end, covered) = span_of(runs, first, last);
    runs.insert(start, end)?;
    let Some(lowest) = covered else {
        return Ok(());
    };
    clear_to(runs, first + 1, lowest);
    Ok(())
}

// Joins the rows to those that are held, where a run was put that can grow to hold them.
fn fill(runs: &mut BTreeMap<u32, u32>, first: u32, last: u32)
    requires spaced { IsColumn runs.old }
    requires rows { (1 ≤ first) × (first ≤ last) × (last ≤ 1048576) }
    requires room { HasRoom (get nat_cmp runs.old) first }
    ensures spaced { IsColumn runs.new }
    ensures joined { RowsJoin (get nat_cmp runs.old) (get nat_cmp runs.new) first last }
{
    let _ = join(runs, first, last);
}

// Whether the row is held, and the last row up to which, and to the last that was asked for, all are held or none is.
fn stretch(runs: &BTreeMap<u32, u32>, row: u32, last: u32) -> (bool, u32)
    requires spaced { IsColumn runs.now }
    requires rows { (row ≤ last) × (last ≤ 1048576) }
    ensures within { (row ≤ result.1) × (result.1 ≤ last) }
    ensures held { OnTrue result.0 (HoldsAll (get nat_cmp runs.now) row result.1) }
    ensures free { OnFalse result.0 (HoldsNone (get nat_cmp runs.now) row result.1) }
{
    if let Some((_, end)) = run_at(runs, row) {
        return (true, end.min(last));
    }
    if row == last {
        return (false, last);
    }
    match next_from(runs, row + 1) {
        Some(next) => (false, last.min(next - 1)),
        None => (false, last),
    }
}

// The rows from first to last that are not held, as runs.
fn gaps(
    runs: &BTreeMap<u32, u32>,
    alloc: Global,
    first: u32,
    last: u32,
) -> Result<Vec<(u32, u32)>, Memory>
    requires spaced { IsColumn runs.now }
    requires rows { (first ≤ last) × (last ≤ 1048576) }
    ensures { IfOk result
        (λ gaps. AreGaps (Holds (get nat_cmp runs.now)) first (last + 1) gaps.items) }
{
    let mut gaps = Vec::new(alloc);
    let mut row = first;
    while row <= last {
        let (held, end) = stretch(runs, row, last);
        if !held {
            gaps.push((row, end))?;
        }
        row = end + 1;
    }
    Ok(gaps)
}

// The range of these rows and columns.
pub(crate) fn strip(first: u32, last: u32, left: u32, right: u32) -> Range
    requires rows { (1 ≤ first) × (first ≤ last) × (last ≤ 1048576) }
    requires cols { (1 ≤ left) × (left ≤ right) × (right ≤ 16384) }
    ensures { result ≡ strip left right (first, last) }
{
    let head = Cell::new(first, left).unwrap();
    let tail = Cell::new(last, right).unwrap();
    Range::of(head, tail)
}

// The one run, where there is just one.
fn one_run(runs: &BTreeMap<u32, u32>) -> Option<(u32, u32)>
    ensures { IfSome result (λ run. runs.now.entries ≡ run ∷ []) }
{
    if runs.len() != 1 {
        return None;
    }
    let run = runs.first_key_value()?;
    Some((*run.0, *run.1))
}

// Adds the runs that have a row to a list, as ranges of the column.
fn push_ranges(runs: &BTreeMap<u32, u32>, col: u32, ranges: &mut Vec<Range>) -> Result<(), Memory>
    requires spaced { IsColumn runs.now }
    requires col { (1 ≤ col) × (col ≤ 16384) }
    ensures { OnOk result
        (ranges.new.items ≡ ranges.old.items ++ column_ranges col runs.now.entries) }
{
    for (first, last) in runs.iter() {
        if *first <= *last {
            ranges.push(strip(*first, *last, col, col))?;
        }
    }
    Ok(())
}

/// A set of rows, as its runs in an ordered map from the first row of each to its last. A run without rows
/// may stand in it, where memory was taken ahead.
#[derive(Drop)]
pub(crate) struct Column {
    runs: BTreeMap<u32, u32>,
}

impl Model for Column {
    ghost use Rattle.std.specs.Prelude.{List, ℕ};
    ghost use Rattle.sheet_refs.specs.Runs.{IsColumn};

    ghost Value = { List (ℕ × ℕ) };

    ghost view = { λ c. c.runs.entries };

    ghost invariant = { λ c. IsColumn c.runs };
}

impl Column {
    pub(crate) fn new(alloc: Global) -> Column
        ensures { result ≡ [] }
    {
        Column {
            runs: BTreeMap::new(alloc),
        }
    }

    /// A set of the same rows. It takes a step for each run.
    pub(crate) fn copy(&self) -> Result<Column, Memory>
        ensures { IfOk result (λ copy. copy ≡ self.now) }
    {
        let runs = self.runs.clone()?;
        Ok(Column { runs })
    }

    /// Whether there is no run, not even one that only keeps room.
    pub(crate) fn is_empty(&self) -> bool
        ensures { IsTrue result → self.now ≡ [] }
    {
        self.runs.is_empty()
    }

    /// The one run of the set, where it has just one.
    pub(crate) fn one_run(&self) -> Option<(u32, u32)>
        ensures { IfSome result (λ run. self.now ≡ run ∷ []) }
    {
        one_run(&self.runs)
    }

    pub(crate) fn has_row(&self, row: u32) -> bool
        ensures { IsTrue result ↔ HasRow self.now row }
    {
        run_at(&self.runs, row).is_some()
    }

    /// Joins the rows to the set. After Memory the set is as it was.
    pub(crate) fn join(&mut self, first: u32, last: u32) -> Result<(), Memory>
        requires { (1 ≤ first) × (first ≤ last) × (last ≤ 1048576) }
        ensures joined { OnOk result (GainsRows self.old self.new first last) }
        ensures err { OnErr result (self.new ≡ self.old) }
    {
        join(&mut self.runs, first, last)
    }

    /// Takes the memory that a fill from this row on needs. The rows stay as they are.
    pub(crate) fn reserve(&mut self, row: u32) -> Result<(), Memory>
        requires { (1 ≤ row) × (row ≤ 1048576) }
        ensures same_ranges { HaveSameRanges self.old self.new }
        ensures room { OnOk result (HasRoom (last_from self.new) row) }
    {
        reserve(&mut self.runs, row)
    }

    /// Joins the rows to the set, for which room was reserved.
    pub(crate) fn fill(&mut self, first: u32, last: u32)
        requires rows { (1 ≤ first) × (first ≤ last) × (last ≤ 1048576) }
        requires room { HasRoom (last_from self.old) first }
        ensures { GainsRows self.old self.new first last }
    {
        fill(&mut self.runs, first, last);
    }

    /// The rows from first to last that are not in the set, as runs in order. It looks at the runs from the
    /// first row to the last alone.
    pub(crate) fn gaps(
        &self,
        alloc: Global,
        first: u32,
        last: u32,
    ) -> Result<Vec<(u32, u32)>, Memory>
        requires { (first ≤ last) × (last ≤ 1048576) }
        ensures { IfOk result (λ gaps. AreGaps (HasRow self.now) first (last + 1) gaps.items) }
    {
        gaps(&self.runs, alloc, first, last)
    }

    /// Adds the runs that have a row to a list, as ranges of the column with this number.
    pub(crate) fn push_ranges(&self, col: u32, ranges: &mut Vec<Range>) -> Result<(), Memory>
        requires { (1 ≤ col) × (col ≤ 16384) }
        ensures pushed { OnOk result
            (ranges.new.items ≡ ranges.old.items ++ column_ranges col self.now) }
        ensures runs { AreMaximalRuns (column_ranges col self.now) }
    {
        push_ranges(&self.runs, col, ranges)
    }
}
