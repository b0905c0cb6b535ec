ghost use Rattle.std.specs.Prelude.{◌≡◌, ◌+◌, ◌≤◌, ◌<◌, ◌↔◌, ◌++◌, [], map};
ghost use Rattle.std.specs.Prelude.{All, IsTrue, IfOk, OnOk, OnErr};
ghost use Rattle.sheet_refs.specs.Bands.{LackRows, rows_at};
ghost use Rattle.sheet_refs.specs.Rectangles.{IsAmong, IsNew, Joins, Tile, AreMaximalRuns};
ghost use Rattle.sheet_refs.specs.Runs.{AreGaps, HasRow, strip};

use crate::bands::{Bands, add_rows, all_runs, band_at, last_same, unite};
use crate::cell::Cell;
use crate::column::strip;
use crate::memory::Memory;
use crate::range::Range;
use std::alloc::Global;
use std::collections::BTreeMap;
use std::marker::Model;

// The rows from first to last that a column doesn't have.
fn gaps_at(
    bands: &Bands,
    alloc: Global,
    col: u32,
    first: u32,
    last: u32,
) -> Result<Vec<(u32, u32)>, Memory>
    requires { (first ≤ last) × (last ≤ 1048576) }
    ensures { IfOk result
        (λ gaps. AreGaps (HasRow (rows_at bands.now col)) first (last + 1) gaps.items) }
{
    match band_at(bands, col) {
        Some(column) => column.gaps(alloc, first, last),
        None => {
            let mut all = Vec::new(alloc);
            all.push((first, last))?;
            Ok(all)
        }
    }
}

// Whether the runs are the same.
fn are_same(runs: &[(u32, u32)], others: &[(u32, u32)]) -> bool
    ensures { IsTrue result → runs.now ≡ others.now }
{
    if runs.len() != others.len() {
        return false;
    }
    for place in 0..runs.len() {
        let run = runs[place];
        let other = others[place];
        if run.0 != other.0 || run.1 != other.1 {
            return false;
        }
    }
    true
}

// The last column from the left to the right one up to which all lack the same rows as the left one. It looks at each
// band of columns with the same rows once.
fn last_alike(
    bands: &Bands,
    alloc: Global,
    gaps: &[(u32, u32)],
    left: u32,
    right: u32,
    first: u32,
    last: u32,
) -> Result<u32, Memory>
    requires rows { (first ≤ last) × (last ≤ 1048576) }
    requires cols { (1 ≤ left) × (left ≤ right) × (right ≤ 16384) }
    requires gaps { AreGaps (HasRow (rows_at bands.now left)) first (last + 1) gaps.now }
    ensures within { IfOk result (λ end. (left ≤ end) × (end ≤ right)) }
    ensures alike { IfOk result
        (λ end. LackRows (rows_at bands.now) left (end + 1) first (last + 1) gaps.now) }
{
    let mut end = last_same(bands, left, right);
    while end < right {
        let others = gaps_at(bands, alloc, end + 1, first, last)?;
        if !are_same(&others, gaps) {
            return Ok(end);
        }
        end = last_same(bands, end + 1, right);
    }
    Ok(end)
}

// Adds the ranges of these runs of rows, from the left to the right column.
fn push_strips(
    parts: &mut Vec<Range>,
    gaps: &[(u32, u32)],
    left: u32,
    right: u32,
) -> Result<(), Memory>
    requires cols { (1 ≤ left) × (left ≤ right) × (right ≤ 16384) }
    requires rows { All (λ g. (1 ≤ g.0) × (g.0 ≤ g.1) × (g.1 ≤ 1048576)) gaps.now }
    ensures { OnOk result (parts.new.items ≡ parts.old.items ++ map (strip left right) gaps.now) }
{
    for (first, last) in gaps {
        parts.push(strip(*first, *last, left, right))?;
    }
    Ok(())
}

/// A set of cells, as disjoint ranges. Contracts see it as the list of its maximal vertical runs, by column
/// and then by row, and by `IsAmong` as a set of cells.
///
/// Within, columns that hold the same rows side by side are a band, whose runs of rows stand in an ordered map, and so
/// do the bands. What a range adds is found by a few look-ups in each of the bands that it meets, and by those of their
/// runs that it touches. A band is split where a range begins or ends within it.
#[derive(Drop)]
pub struct RectSet {
    bands: Bands,
    alloc: Global,
}

impl Model for RectSet {
    ghost use Rattle.std.specs.Prelude.{List};
    ghost use Rattle.sheet_refs.specs.Cells.{Corners};
    ghost use Rattle.sheet_refs.specs.Bands.{all_ranges, rows_at};

    ghost Value = { List Corners };

    ghost view = { λ s. all_ranges (rows_at s.bands) };
}

impl RectSet {
    ghost use Rattle.sheet_refs.specs.Cells.{Position};

    /// The set of no cells.
    pub fn new(alloc: Global) -> RectSet
        ensures { result ≡ [] }
    {
        RectSet {
            bands: BTreeMap::new(alloc),
            alloc,
        }
    }

    /// Adds the cells of a range to the set. After Memory the set is as it was.
    ///
    /// For each band of the range it takes a few look-ups among the runs of that band, and takes out those that come to
    /// lie in a longer one. It copies the runs of a band that is split. Bands side by side that come to have the same
    /// one run become one band, so that a range which is wholly there is found by one look-up.
    pub fn add(&mut self, range: Range) -> Result<(), Memory>
        ensures joined { OnOk result (Joins self.old self.new range) }
        ensures err { OnErr result (self.new ≡ self.old) }
    {
        let left = range.head().col();
        let right = range.tail().col();
        add_rows(&mut self.bands, self.alloc, range)?;
        unite(&mut self.bands, left, right + 1);
        Ok(())
    }

    /// Whether the cell is in the set.
    pub fn contains(&self, cell: Cell) -> bool
        ensures { IsTrue result ↔ IsAmong self.now cell }
    {
        match band_at(&self.bands, cell.col()) {
            Some(column) => column.has_row(cell.row()),
            None => false,
        }
    }

    /// The cells of a range that are not in the set, as disjoint ranges. Neighbouring columns that lack the
    /// same rows share their ranges.
    pub fn new_part(&self, range: Range) -> Result<Vec<Range>, Memory>
        ensures { IfOk result (λ parts. Tile parts.items (IsNew self.now range)) }
    {
        let first = range.head().row();
        let last = range.tail().row();
        let end = range.tail().col();
        let mut parts = Vec::new(self.alloc);
        let mut left = range.head().col();
        while left <= end {
            let gaps = gaps_at(&self.bands, self.alloc, left, first, last)?;
            let right = last_alike(&self.bands, self.alloc, &gaps, left, end, first, last)?;
            push_strips(&mut parts, &gaps, left, right)?;
            left = right + 1;
        }
        Ok(parts)
    }

    /// The maximal vertical runs of the set, by column and then by row.
    pub fn columns(&self) -> Result<Vec<Range>, Memory>
        ensures listed { IfOk result (λ runs. runs.items ≡ self.now) }
        ensures runs { IfOk result (λ runs. AreMaximalRuns runs.items) }
    {
        all_runs(&self.bands, self.alloc)
    }
}
