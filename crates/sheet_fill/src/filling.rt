ghost use Rattle.std.specs.Prelude.{◌≡◌, ◌↔◌, ℕ, length, Err, IfOk, IsTrue};
ghost use Rattle.sheet_refs.specs.Cells.{Position, IsIn, IsOrdered};
ghost use Rattle.sheet_refs.specs.Sizes.{is_inside};
ghost use Rattle.sheet_model.specs.Edits.{IsFor};
ghost use Rattle.sheet_model.specs.Sheets.{HasLabel, IsWritten, content_of, content_value};
ghost use Rattle.sheet_fill.specs.Filling.{HasNoOthers, HasTooMany, copied, filled, others_of};
ghost use Rattle.sheet_fill.specs.declared.refused.FillRefused.TheVariants as refused;

use crate::refused::FillRefused;
use formula_syntax::shift;
use sheet_model::{Change, Content, Edit, MAX_CHANGES, Sheet};
use sheet_refs::{Cell, Memory, Range};
use std::alloc::Global;
use std::sync::Arc;

// Whether a range is one cell alone.
fn is_alone(cell: Cell, range: &Range) -> bool
    ensures alone { IsTrue result ↔ HasNoOthers cell range.now }
    ensures ordered { IsOrdered range.now.head range.now.tail }
{
    let (head, tail) = (range.head(), range.tail());
    head == cell && tail == cell
}

// How many cells a range has besides one.
fn count_others(from: Cell, to: &Range) -> u64
    ensures { result ≡ length (others_of from to.now) }
{
    if to.contains(from) {
        to.cells() - 1
    } else {
        to.cells()
    }
}

// What a cell's content is as a copy in another cell.
fn copy_to(alloc: Global, content: &Content, from: Cell, to: Cell) -> Result<Content, Memory>
    requires { IsWritten (content_value content.now) }
    ensures copied { IfOk result
        (λ copy. content_value copy ≡ copied from to (content_value content.now)) }
    ensures written { IfOk result (λ copy. IsWritten (content_value copy)) }
{
    let Content::Formula(formula) = content else {
        return content.copy();
    };
    let down = to.row() as i32 - from.row() as i32;
    let right = to.col() as i32 - from.col() as i32;
    let shifted = shift(alloc, formula, down, right)?;
    Ok(Content::Formula(Arc::new(alloc, shifted)?))
}

// The changes by which the other cells of a range get copies of what a cell holds, row by row.
fn copies(alloc: Global, sheet: &Sheet, from: Cell, to: &Range) -> Result<Vec<Change>, Memory>
    ensures filled { IfOk result (λ changes. changes.items ≡ filled sheet.now from to.now) }
    ensures label { HasLabel (length sheet.now.labels) (content_of sheet.now from) }
{
    let source = sheet.content(from);
    let mut changes = Vec::new(alloc);
    for place in 0..to.cells() {
        let cell = to.cell_at(place);
        if cell == from {
            continue;
        }
        let content = copy_to(alloc, source, from, cell)?;
        changes.push(Change { cell, content })?;
    }
    Ok(changes)
}

/// The edit that fills a range of the sheet from one of its cells: each other cell of the range, row by row, gets a
/// copy of what that cell holds, a formula as `shift` gives it for the way there, and anything else as it is. The
/// source itself may stand in the range or outside it, and is none of the changes.
///
/// It is refused with `Nothing` exactly where the range is that cell alone, and with `TooMany` exactly where it has
/// more than 1,024 other cells; any other refusal is want of memory. These cells are counted by the corners of the
/// range, and each change takes one shift of the formula.
pub fn fill(alloc: Global, sheet: &Sheet, from: Cell, to: Range) -> Result<Edit, FillRefused>
    requires from { IsTrue (is_inside sheet.now.sizes from) }
    requires to { (cell : Position) → IsIn cell to → IsTrue (is_inside sheet.now.sizes cell) }
    ensures filled { IfOk result (λ edit. edit ≡ filled sheet.now from to) }
    ensures fits { IfOk result (IsFor sheet.now) }
    ensures nothing { result ≡ Err refused.Nothing ↔ HasNoOthers from to }
    ensures too_many { (count : ℕ)
        → result ≡ Err (refused.TooMany count) ↔ HasTooMany from to count }
{
    if is_alone(from, &to) {
        return Err(FillRefused::Nothing);
    }
    let cells = count_others(from, &to);
    if cells > MAX_CHANGES as u64 {
        return Err(FillRefused::TooMany { cells });
    }
    let changes = copies(alloc, sheet, from, &to)?;
    Ok(Edit::of(changes).unwrap())
}
