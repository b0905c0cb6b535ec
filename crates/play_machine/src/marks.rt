ghost use Rattle.std.specs.Prelude.{◌≡◌, ◌∷◌, [], ◌+◌, ◌≤◌, length, replicate, IfOk, IfSome};
ghost use Rattle.sheet_refs.specs.Sizes.{cell_count};
ghost use Rattle.play_machine.specs.Machine.{mark_of};
ghost use Rattle.play_machine.specs.Marking.{OnlyThese, SetsMarks, marked_count};

use sheet_refs::{Cell, Memory, Sizes};
use std::alloc::Global;

/// No mark for each of so many cells.
pub(crate) fn no_marks(alloc: Global, cells: usize) -> Result<Vec<u64>, Memory>
    ensures { IfOk result (λ marks. marks.items ≡ replicate cells 0) }
{
    let mut marks = Vec::with_capacity(alloc, cells)?;
    for _ in 0..cells {
        marks.push(0)?;
    }
    Ok(marks)
}

/// The mark of a cell.
pub(crate) fn mark_at(sizes: Sizes, marks: &[u64], cell: Cell) -> u64
    requires count { length marks.now ≡ cell_count sizes }
    ensures { result ≡ mark_of sizes marks.now cell }
{
    if sizes.holds(cell) {
        marks[sizes.place(cell)]
    } else {
        0
    }
}

// Marks a cell with a number, where it is in the rectangle; answers 1 where it had no mark, and else 0.
fn mark_cell(sizes: Sizes, cell: Cell, number: u64, marks: &mut Vec<u64>) -> usize
    requires count { length marks.old.items ≡ cell_count sizes }
    requires number { 1 ≤ number }
    ensures marks { SetsMarks sizes (cell ∷ []) number marks.old.items marks.new.items }
    ensures counted { marked_count marks.new.items ≡ marked_count marks.old.items + result }
    ensures one { result ≤ 1 }
{
    if !sizes.holds(cell) {
        return 0;
    }
    let place = sizes.place(cell);
    let old = marks[place];
    marks[place] = number;
    if old == 0 { 1 } else { 0 }
}

/// Marks cells with a number; answers how many had no mark.
pub(crate) fn mark_all(sizes: Sizes, cells: &[Cell], number: u64, marks: &mut Vec<u64>) -> usize
    requires count { length marks.old.items ≡ cell_count sizes }
    requires number { 1 ≤ number }
    ensures marks { SetsMarks sizes cells.now number marks.old.items marks.new.items }
    ensures counted { marked_count marks.new.items ≡ marked_count marks.old.items + result }
{
    let mut added = 0;
    for cell in cells {
        added += mark_cell(sizes, *cell, number, marks);
    }
    added
}

// Takes the mark of a cell away, where it is in the rectangle.
fn unmark_cell(sizes: Sizes, cell: Cell, marks: &mut Vec<u64>)
    requires { length marks.old.items ≡ cell_count sizes }
    ensures { SetsMarks sizes (cell ∷ []) 0 marks.old.items marks.new.items }
{
    if !sizes.holds(cell) {
        return;
    }
    marks[sizes.place(cell)] = 0;
}

// Takes the marks of cells away.
fn unmark_all(sizes: Sizes, cells: &[Cell], marks: &mut Vec<u64>)
    requires { length marks.old.items ≡ cell_count sizes }
    ensures { SetsMarks sizes cells.now 0 marks.old.items marks.new.items }
{
    for cell in cells {
        unmark_cell(sizes, *cell, marks);
    }
}

/// Takes all marks away: those of a list of cells, where there is one and no other cell is marked, or else all in one
/// pass.
pub(crate) fn clear_all(sizes: Sizes, only: Option<Vec<Cell>>, marks: &mut Vec<u64>)
    requires count { length marks.old.items ≡ cell_count sizes }
    requires only { IfSome only (λ list. OnlyThese sizes marks.old.items list.items) }
    ensures { marks.new.items ≡ replicate (length marks.old.items) 0 }
{
    let Some(cells) = only else {
        marks.fill(0);
        return;
    };
    unmark_all(sizes, &cells, marks);
}
