ghost use Rattle.std.specs.Prelude.{◌≡◌, ◌<◌, ◌≤◌, length, Err, Some, IfOk};
ghost use Rattle.std.specs.Prelude.{MatchOption, OnOk, IfErr, IfSome, IsNone};
ghost use Rattle.sheet_refs.specs.Cells.{Position};
ghost use Rattle.sheet_refs.specs.Rectangles.{IsAmong};
ghost use Rattle.sheet_refs.specs.Sizes.{AreNamed};
ghost use Rattle.graph_walk.specs.Starts.{HoldsReachOfAll, ReachOfAll};
ghost use Rattle.sheet_model.specs.Edits.{AreInSheet, HaveLabels};
ghost use Rattle.edit_log.specs.Books.{HaveRefs, IsPreparedFor, IsUnchanged, client_entry};
ghost use Rattle.edit_log.specs.Refusals.{IsCause, IsFirstOutside};
ghost use Rattle.edit_log.specs.Rows.{LieInside};
ghost use Rattle.edit_log.specs.Touches.{ListsRowByRow, cell_ranges};
ghost use Rattle.edit_log.specs.declared.refused.PrepareRefused.TheVariants as refused;

use crate::book::Book;
use crate::prepared::Prepared;
use crate::refused::PrepareRefused;
use crate::rows::cells_by_row;
use graph_walk::{Graph, dependents_of_all};
use sheet_model::{Change, Edit, Entry, MAX_ENTRIES, Sheet};
use sheet_refs::{Cell, Memory, Range, RectSet, Refs, Sizes};
use std::alloc::Global;

// The ranges to which the formula of each change refers.
fn refs_of_all(alloc: Global, changes: &[Change]) -> Result<Vec<Refs>, Memory>
    ensures { IfOk result (λ refs. HaveRefs changes.now refs.items) }
{
    let mut all = Vec::with_capacity(alloc, changes.len())?;
    for change in changes {
        let refs = change.content.refs(alloc)?;
        all.push(refs)?;
    }
    Ok(all)
}

// The ranges of the single cells that some changes change.
fn changed_ranges(alloc: Global, changes: &[Change]) -> Result<Vec<Range>, Memory>
    ensures { IfOk result (λ ranges. ranges.items ≡ cell_ranges changes.now) }
{
    let mut ranges = Vec::with_capacity(alloc, changes.len())?;
    for change in changes {
        let cell = change.cell;
        ranges.push(Range::of(cell, cell))?;
    }
    Ok(ranges)
}

// The cells of a set, row by row.
fn set_by_row(alloc: Global, sizes: Sizes, set: &RectSet) -> Result<Vec<Cell>, Memory>
    requires named { AreNamed sizes }
    requires inside { LieInside sizes set.now }
    ensures { IfOk result (λ cells. ListsRowByRow sizes cells.items (IsAmong set.now)) }
{
    let runs = set.columns()?;
    cells_by_row(alloc, sizes, &runs)
}

// The first changed cell outside the sheet.
fn first_outside(sheet: &Sheet, changes: &[Change]) -> Option<Cell>
    ensures { MatchOption result (AreInSheet sheet.now changes.now)
        (IsFirstOutside sheet.now changes.now) }
{
    for change in changes {
        if !sheet.holds(change.cell) {
            return Some(change.cell);
        }
    }
    None
}

impl<G: Graph> Book<G> {
    // Why an edit is refused, however much memory there is.
    fn refusal(&self, edit: &Edit) -> Option<PrepareRefused>
        ensures out_of_sheet { (cell : Position) → IsFirstOutside self.now.sheet edit.now cell
            → result ≡ Some (refused.OutOfSheet cell) }
        ensures log_full { AreInSheet self.now.sheet edit.now
            → length self.now.log ≡ 1048576 → result ≡ Some (refused.LogFull 1048576) }
        ensures why { IfSome result (IsCause self.now.sheet self.now.log edit.now) }
        ensures inside { IsNone result → AreInSheet self.now.sheet edit.now }
        ensures few { IsNone result → length self.now.log < 1048576 }
    {
        if let Some(cell) = first_outside(&self.sheet, edit.changes()) {
            return Some(PrepareRefused::OutOfSheet { cell });
        }
        let length = self.log.len();
        if length == MAX_ENTRIES {
            return Some(PrepareRefused::LogFull {
                length: length as u64,
            });
        }
        None
    }

    // The cells that an edit of cells of the sheet touches.
    fn touched_by(&self, changes: &[Change]) -> Result<RectSet, Memory>
        ensures { IfOk result
            (HoldsReachOfAll (G.pairs self.now.graph) (cell_ranges changes.now)) }
    {
        let ranges = changed_ranges(self.alloc, changes)?;
        dependents_of_all(self.alloc, &self.graph, &ranges)
    }

    // An edit of cells of the sheet, with all that `apply` needs of it.
    fn ready(&self, client: u32, edit: Edit) -> Result<Prepared, Memory>
        requires inside { AreInSheet self.now.sheet edit }
        requires label { HaveLabels (length self.now.sheet.labels) edit }
        requires room { length self.now.log < 1048576 }
        ensures prepared { IfOk result (IsPreparedFor self.now.opening self.now.log) }
        ensures entry { IfOk result (λ prepared. prepared.entry ≡ client_entry client edit) }
    {
        let copy = edit.copy()?;
        let refs = refs_of_all(self.alloc, copy.changes())?;
        let set = self.touched_by(copy.changes())?;
        let touched = set_by_row(self.alloc, self.sheet.sizes(), &set)?;
        let keeps_cycles = self.keeps_cycles(copy.changes(), &refs, &set)?;
        Ok(Prepared {
            entry: Entry { client, edit },
            number: self.log.len() as u64 + 1,
            touched,
            edit: copy,
            refs,
            keeps_cycles,
        })
    }

    // Takes the memory that an edit of so many changes needs in the graph and in the log.
    fn reserve(&mut self, changes: usize) -> Result<(), Memory>
        requires { changes ≤ 1024 }
        ensures same { IsUnchanged G.pairs self.old self.new }
        ensures room { OnOk result (changes ≤ self.new.spare) }
    {
        self.graph.reserve(changes as u32)?;
        self.log.reserve(1)?;
        Ok(())
    }

    /// Makes an edit ready, so that `apply` can't fail: it finds the cells that the edit touches, and takes all memory
    /// that is needed. It changes no content, no pair and no entry, whether it answers Ok or is refused.
    ///
    /// That the cells are in the sheet is looked at first, then the length of the log. It takes the time of one walk of
    /// the graph over the dependents of all changed cells, and of a sort of as many numbers.
    pub fn prepare(&mut self, client: u32, edit: Edit) -> Result<Prepared, PrepareRefused>
        requires { HaveLabels (length self.old.sheet.labels) edit }
        ensures prepared { IfOk result (IsPreparedFor self.new.opening self.new.log) }
        ensures entry { IfOk result (λ prepared. prepared.entry ≡ client_entry client edit) }
        ensures room { OnOk result (length edit ≤ self.new.spare) }
        ensures same { IsUnchanged G.pairs self.old self.new }
        ensures out_of_sheet { (cell : Position) → IsFirstOutside self.old.sheet edit cell
            → result ≡ Err (refused.OutOfSheet cell) }
        ensures log_full { AreInSheet self.old.sheet edit
            → length self.old.log ≡ 1048576 → result ≡ Err (refused.LogFull 1048576) }
        ensures why { IfErr result (IsCause self.old.sheet self.old.log edit) }
    {
        if let Some(refused) = self.refusal(&edit) {
            return Err(refused);
        }
        let changes = edit.changes().len();
        let prepared = self.ready(client, edit)?;
        self.reserve(changes)?;
        Ok(prepared)
    }
}
