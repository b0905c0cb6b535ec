ghost use Rattle.std.specs.Prelude.{◌≡◌, ◌≤◌, None, length, replicate, IfOk, IfSome, OnOk};
ghost use Rattle.sheet_refs.specs.Sizes.{cell_count};
ghost use Rattle.play_machine.specs.Machine.{AreTurns};
ghost use Rattle.play_machine.specs.Marking.{AddsCells, OnlyThese, SetsMarks, marked_count};
ghost use Rattle.play_machine.specs.Waiting.{AreKept, IsQueue, TouchesAtMost};
ghost use Rattle.play_machine.specs.Waiting.Unplaced.{nothing};

use crate::marks::{clear_all, mark_all, no_marks};
use crate::queue::Queue;
use sheet_model::Sheet;
use sheet_refs::{Cell, Memory, Sizes};
use std::alloc::Global;
use std::snapshot::Snapshot;

/// To walk over a list of touched cells takes more time a cell than to walk over all marks, so no list is kept that has
/// more than one cell of so many.
const SHARE: usize = 16;

/// The marks of a sheet's cells, row by row, 0 for none; how many are other than 0; the cells that were touched since
/// all marks were taken away, where these are few; and what turns go by, where some were made since then.
#[derive(Drop)]
pub(crate) struct MarkedCells {
    pub(crate) marks: Vec<u64>,
    pub(crate) left: usize,
    pub(crate) touched: Option<Vec<Cell>>,
    pub(crate) queue: Option<Queue>,
    pub(crate) alloc: Global,
}

// Adds cells to a list of touched ones, or lets it go where it or what is added is long beside a number of cells.
fn with_more(
    touched: Option<Vec<Cell>>,
    cells: &[Cell],
    all: usize,
) -> Result<Option<Vec<Cell>>, Memory>
    ensures { IfOk result (AddsCells touched cells.now) }
{
    let few = all / SHARE;
    let Some(mut list) = touched else {
        return Ok(None);
    };
    if list.len() > few || cells.len() > few {
        return Ok(None);
    }
    list.extend_from_slice(cells)?;
    Ok(Some(list))
}

// The queue that was kept, or else a new one.
fn queue_of(
    alloc: Global,
    sheet: &Sheet,
    marks: &[u64],
    kept: Option<Queue>,
) -> Result<Queue, Memory>
    requires count { length marks.now ≡ cell_count sheet.now.sizes }
    requires kept { IfSome kept (IsQueue sheet.now marks.now nothing) }
    ensures { IfOk result (IsQueue sheet.now marks.now nothing) }
{
    match kept {
        Some(queue) => Ok(queue),
        None => Queue::of(alloc, sheet, marks),
    }
}

impl MarkedCells {
    /// No mark for each cell of a sheet.
    pub(crate) fn new(alloc: Global, sheet: &Sheet) -> Result<MarkedCells, Memory>
        ensures marks { IfOk result
            (λ cells. cells.marks.items ≡ replicate (cell_count sheet.now.sizes) 0) }
        ensures kept { IfOk result (AreKept sheet.now) }
    {
        let sizes = sheet.sizes();
        let marks = no_marks(alloc, sizes.rows as usize * sizes.cols as usize)?;
        Ok(MarkedCells {
            marks,
            left: 0,
            touched: Some(Vec::new(alloc)),
            queue: None,
            alloc,
        })
    }

    // Gives cells a number as their mark, and lists them as touched.
    fn set(&mut self, sizes: Sizes, cells: &[Cell], number: u64) -> Result<(), Memory>
        requires count { length self.old.marks.items ≡ cell_count sizes }
        requires left { self.old.left ≡ marked_count self.old.marks.items }
        requires touched { IfSome self.old.touched
            (λ list. OnlyThese sizes self.old.marks.items list.items) }
        requires number { 1 ≤ number }
        ensures marks { OnOk result
            (SetsMarks sizes cells.now number self.old.marks.items self.new.marks.items) }
        ensures left { OnOk result (self.new.left ≡ marked_count self.new.marks.items) }
        ensures touched { OnOk result (IfSome self.new.touched
            (λ list. OnlyThese sizes self.new.marks.items list.items)) }
        ensures queue { self.new.queue ≡ self.old.queue }
    {
        let touched = self.touched.take();
        self.touched = with_more(touched, cells, self.marks.len())?;
        self.left += mark_all(sizes, cells, number, &mut self.marks);
        Ok(())
    }

    /// Marks the cells that an edit touches with its number, in the sheet after it; clauses alone read the one before.
    /// What turns go by is kept, unless edits have touched more cells since it was made than the sheet has.
    pub(crate) fn mark(
        &mut self,
        before: Snapshot<Sheet>,
        sheet: &Sheet,
        cells: &[Cell],
        number: u64,
    ) -> Result<(), Memory>
        requires kept { AreKept before.value self.old }
        requires edit { TouchesAtMost before.value sheet.now cells.now }
        requires number { 1 ≤ number }
        ensures marks { OnOk result
            (SetsMarks sheet.now.sizes cells.now number self.old.marks.items self.new.marks.items) }
        ensures kept { OnOk result (AreKept sheet.now self.new) }
    {
        let sizes = sheet.sizes();
        let kept = self.queue.take();
        self.set(sizes, cells, number)?;
        let Some(mut queue) = kept else {
            return Ok(());
        };
        if !queue.outlasts(cells.len(), number, self.marks.len()) {
            return Ok(());
        }
        queue.set_aside(sizes, cells, number);
        queue.place(self.alloc, sheet, &self.marks, cells)?;
        self.queue = Some(queue);
        Ok(())
    }

    /// Takes all marks away: those of the touched cells where these are few, else all in one pass, and at once where no
    /// mark is left.
    pub(crate) fn clear(&mut self, sizes: Sizes)
        requires count { length self.old.marks.items ≡ cell_count sizes }
        requires left { self.old.left ≡ marked_count self.old.marks.items }
        requires touched { IfSome self.old.touched
            (λ list. OnlyThese sizes self.old.marks.items list.items) }
        ensures marks { self.new.marks.items ≡ replicate (length self.old.marks.items) 0 }
        ensures left { self.new.left ≡ marked_count self.new.marks.items }
        ensures touched { IfSome self.new.touched
            (λ list. OnlyThese sizes self.new.marks.items list.items) }
        ensures queue { self.new.queue ≡ None }
    {
        self.queue = None;
        let touched = self.touched.take();
        self.touched = Some(Vec::new(self.alloc));
        if self.left == 0 {
            return;
        }
        clear_all(sizes, touched, &mut self.marks);
        self.left = 0;
    }

    /// Makes so many turns. As many as there are marks take all of them away in one pass. Before the first of fewer
    /// turns since all marks were taken away it looks once at each cell.
    pub(crate) fn work(&mut self, sheet: &Sheet, turns: u32) -> Result<(), Memory>
        requires kept { AreKept sheet.now self.old }
        ensures turns { OnOk result
            (AreTurns sheet.now turns self.old.marks.items self.new.marks.items) }
        ensures kept { OnOk result (AreKept sheet.now self.new) }
    {
        if turns as usize >= self.left {
            self.clear(sheet.sizes());
            return Ok(());
        }
        let kept = self.queue.take();
        let mut queue = queue_of(self.alloc, sheet, &self.marks, kept)?;
        for _ in 0..turns {
            queue.turn(self.alloc, sheet, &mut self.marks)?;
        }
        self.left -= turns as usize;
        self.queue = Some(queue);
        Ok(())
    }
}
