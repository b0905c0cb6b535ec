ghost use Rattle.std.specs.Prelude.{◌≡◌, ◌↔◌, IsTrue, IfOk, IfSome, OnOk, Some, All};
ghost use Rattle.graph_walk.specs.Graphs.{IsOnCycle};
ghost use Rattle.sheet_model.specs.Values.{AreValues};
ghost use Rattle.edit_log.specs.Books.{IsBook};
ghost use Rattle.edit_log.specs.Cycles.{AddsWhereCircular, HoldsCircular, Misses, MissesAll};

use crate::book::Book;
use graph_walk::{Graph, on_cycle};
use sheet_model::{Change, Sheet, all_values};
use sheet_refs::{Cell, Memory, Range, RectSet, Refs};
use std::alloc::Global;
use value_core::{ErrorKind, Value, code};

// Whether no cell of a set is in the range. It takes a few look-ups in each column of the range.
fn misses(set: &RectSet, range: Range) -> Result<bool, Memory>
    ensures { IfOk result (λ misses. IsTrue misses → Misses set.now range) }
{
    let left = set.new_part(range)?;
    if left.contains(&range) {
        return Ok(true);
    }
    Ok(false)
}

// Whether no cell of a set is in one of some ranges.
fn misses_each(set: &RectSet, ranges: &[Range]) -> Result<bool, Memory>
    ensures { IfOk result (λ misses. IsTrue misses → All (Misses set.now) ranges.now) }
{
    for range in ranges {
        let apart = misses(set, *range)?;
        if !apart {
            return Ok(false);
        }
    }
    Ok(true)
}

// Whether no cell of a set is in a range to which one of some formulas refers.
fn misses_all(set: &RectSet, refs: &[Refs]) -> Result<bool, Memory>
    ensures { IfOk result (λ misses. IsTrue misses → MissesAll set.now refs.now) }
{
    for one in refs {
        let apart = misses_each(set, one.ranges())?;
        if !apart {
            return Ok(false);
        }
    }
    Ok(true)
}

// Adds a cell to a set where the code of its value is that of `#CIRC!`.
fn add_where_circular(set: &mut RectSet, cell: Cell, word: u64) -> Result<(), Memory>
    ensures { OnOk result (AddsWhereCircular cell word set.old set.new) }
{
    if word != code(Value::Error(ErrorKind::Circ)) {
        return Ok(());
    }
    set.add(Range::of(cell, cell))
}

// The cells of a sheet whose values have the code of `#CIRC!`, from the codes of all of them.
fn circular_among(alloc: Global, sheet: &Sheet, codes: &[u64]) -> Result<RectSet, Memory>
    requires { AreValues sheet.now codes.now }
    ensures { IfOk result (HoldsCircular sheet.now) }
{
    let sizes = sheet.sizes();
    let mut set = RectSet::new(alloc);
    for place in 0..codes.len() {
        let cell = sizes.cell_at(place);
        add_where_circular(&mut set, cell, codes[place])?;
    }
    Ok(set)
}

// The cells with the value `#CIRC!`: those on cycles, and all that depend on one. It takes the time of `all_values`.
fn circular_cells(alloc: Global, sheet: &Sheet) -> Result<RectSet, Memory>
    ensures { IfOk result (HoldsCircular sheet.now) }
{
    let codes = all_values(alloc, sheet)?;
    circular_among(alloc, sheet, &codes)
}

// Whether one of the changes is of a cell of a set.
fn changes_one(set: &RectSet, changes: &[Change]) -> bool {
    for change in changes {
        if set.contains(change.cell) {
            return true;
        }
    }
    false
}

/// What is known of cycles, where it is to be kept; else nothing.
pub(crate) fn kept_where(known: Option<RectSet>, keeps: bool) -> Option<RectSet>
    ensures { IfSome result (λ set. IsTrue keeps × (known ≡ Some set)) }
{
    if keeps { known } else { None }
}

impl<G: Graph> Book<G> {
    // Whether what is known of cycles stays true through an edit that touches the cells of a set: none of its formulas
    // refers to one of these. Where it changes a cell that may be on a cycle, less is to be known, and it isn't kept.
    pub(crate) fn keeps_cycles(
        &self,
        changes: &[Change],
        refs: &[Refs],
        touched: &RectSet,
    ) -> Result<bool, Memory>
        ensures { IfOk result (λ keeps. IsTrue keeps → MissesAll touched.now refs.now) }
    {
        if let Some(known) = &self.cycles {
            if changes_one(known, changes) {
                return Ok(false);
            }
        }
        misses_all(touched, refs)
    }

    // Makes known which cells may be on a cycle.
    fn learn_cycles(&mut self) -> Result<(), Memory>
        ensures { self.new ≡ self.old }
    {
        if self.cycles.is_some() {
            return Ok(());
        }
        let set = circular_cells(self.alloc, &self.sheet)?;
        self.cycles = Some(set);
        Ok(())
    }

    /// Whether the cell may be on a cycle, by what is known: true where nothing is known. It is a look-up.
    pub fn may_be_on_cycle(&self, cell: Cell) -> bool
        ensures { IsOnCycle (G.pairs self.now.graph) cell → IsTrue result }
    {
        match &self.cycles {
            Some(set) => set.contains(cell),
            None => true,
        }
    }

    /// Whether the cell is on a cycle: whether it is reached again from its own references. Where nothing is known of
    /// cycles it takes the time of `all_values`; then a look-up, except for a cell that may be on one, which takes the
    /// time of a walk over all that depends on it. After `Memory` the book is as before.
    pub fn on_cycle(&mut self, cell: Cell) -> Result<bool, Memory>
        ensures on { IfOk result (λ on. IsTrue on ↔ IsOnCycle (G.pairs self.old.graph) cell) }
        ensures same { self.new ≡ self.old }
        ensures kept { IsBook G.pairs self.old }
    {
        // Says what a book keeps.
        let _ = self.length();
        self.learn_cycles()?;
        if !self.may_be_on_cycle(cell) {
            return Ok(false);
        }
        on_cycle(self.alloc, &self.graph, cell)
    }
}
