ghost use Rattle.std.specs.Prelude.{◌≡◌, ◌+◌, ◌<◌, ◌≤◌, [], length, All, IfOk, IfSome, IsTrue};
ghost use Rattle.std.specs.Prelude.{OnOk};
ghost use Rattle.sheet_refs.specs.Sizes.{is_inside};
ghost use Rattle.sheet_model.specs.Edits.{IsFor};
ghost use Rattle.sheet_model.specs.KeptValues.{ForgetsValues, KeepsValuesOf};
ghost use Rattle.sheet_model.specs.Values.{value_of};
ghost use Rattle.edit_log.specs.Books.{IsPreparedFor, IsUnchanged, client_entry};
ghost use Rattle.play_machine.specs.Machine.{MarksTouched, machine_after, opening, report_of, shown_of};
ghost use Rattle.play_machine.specs.Playing.{IsWindow, machine_of};
ghost use Rattle.play_machine.specs.Waiting.{AreKept};

use crate::marked_cells::MarkedCells;
use crate::marks::mark_at;
use edit_log::{Book, PrepareRefused, Prepared};
use graph_walk::Graph;
use sheet_model::{Board, Edit, KeptValues, Report, Sheet, Shown};
use sheet_refs::{Cell, Memory, Range};
use std::alloc::Global;
use std::snapshot::Snapshot;
use value_core::Value;

/// The play machine of a book: the marks of its cells, and the values of the cells, where one was shown.
#[derive(Drop)]
pub(crate) struct Player<G: Graph> {
    pub(crate) book: Book<G>,
    pub(crate) cells: MarkedCells,
    pub(crate) values: Option<KeptValues>,
    pub(crate) alloc: Global,
}

// An edit that is ready to be made. It can't be refused but for want of memory.
fn prepare_edit<G: Graph>(book: &mut Book<G>, client: u32, edit: &Edit) -> Result<Prepared, Memory>
    requires fits { IsFor book.old.sheet edit.now }
    requires few { length book.old.log < 1048576 }
    ensures prepared { IfOk result (IsPreparedFor book.new.opening book.new.log) }
    ensures entry { IfOk result (λ prepared. prepared.entry ≡ client_entry client edit.now) }
    ensures room { OnOk result (length edit.now ≤ book.new.spare) }
    ensures same { IsUnchanged G.pairs book.old book.new }
{
    let edit = edit.copy()?;
    match book.prepare(client, edit) {
        Ok(prepared) => Ok(prepared),
        Err(PrepareRefused::Memory) => Err(Memory),
        Err(PrepareRefused::OutOfSheet { .. } | PrepareRefused::LogFull { .. }) => unreachable!(),
    }
}

// Forgets the values of cells, where values are kept.
fn forget(values: &mut Option<KeptValues>, sheet: &Sheet, cells: &[Cell])
    requires kept { IfSome values.old (KeepsValuesOf sheet.now) }
    requires inside { All (λ cell. IsTrue (is_inside sheet.now.sizes cell)) cells.now }
    ensures { IfSome values.new (ForgetsValues sheet.now cells.now) }
{
    if let Some(values) = values {
        values.forget(sheet, cells);
    }
}

// The value of a cell, by the values that are kept, or else by new ones.
fn value_at(
    alloc: Global,
    sheet: &Sheet,
    kept: &mut Option<KeptValues>,
    cell: Cell,
) -> Result<Value, Memory>
    requires kept { IfSome kept.old (KeepsValuesOf sheet.now) }
    requires inside { IsTrue (is_inside sheet.now.sizes cell) }
    ensures value { IfOk result (λ value. value ≡ value_of sheet.now cell) }
    ensures kept { OnOk result (IfSome kept.new (KeepsValuesOf sheet.now)) }
{
    if let Some(values) = kept {
        return values.value(sheet, cell);
    }
    let mut values = KeptValues::new(alloc, sheet)?;
    let value = values.value(sheet, cell)?;
    *kept = Some(values);
    Ok(value)
}

impl<G: Graph> Player<G> {
    /// A book without entries, no cell of which is marked.
    pub(crate) fn new(alloc: Global, book: Book<G>) -> Result<Player<G>, Memory>
    where
        G: Drop,
        requires { book.log ≡ [] }
        ensures machine { IfOk result
            (λ player. machine_of player.book player.cells.marks.items ≡ opening book.sheet) }
        ensures kept { IfOk result (λ player. AreKept player.book.sheet player.cells) }
        ensures values { IfOk result
            (λ player. IfSome player.values (KeepsValuesOf player.book.sheet)) }
    {
        let cells = MarkedCells::new(alloc, book.sheet())?;
        Ok(Player {
            book,
            cells,
            values: None,
            alloc,
        })
    }

    /// Makes an edit, and marks all that it touches.
    pub(crate) fn put(&mut self, client: u32, edit: &Edit) -> Result<(), Memory>
        requires fits { IsFor self.old.book.sheet edit.now }
        requires few { length self.old.book.log < 1048576 }
        requires kept { AreKept self.old.book.sheet self.old.cells }
        requires values { IfSome self.old.values (KeepsValuesOf self.old.book.sheet) }
        ensures marks { OnOk result (MarksTouched self.old.book.sheet client edit.now
            (length self.old.book.log + 1) self.old.cells.marks.items self.new.cells.marks.items) }
        ensures machine { OnOk result (machine_of self.new.book self.new.cells.marks.items
            ≡ machine_after (machine_of self.old.book self.old.cells.marks.items)
            edit.now self.new.cells.marks.items) }
        ensures kept { OnOk result (AreKept self.new.book.sheet self.new.cells) }
        ensures values { OnOk result (IfSome self.new.values (KeepsValuesOf self.new.book.sheet)) }
    {
        let ready = prepare_edit(&mut self.book, client, edit)?;
        let before = Snapshot::of(self.book.sheet());
        forget(&mut self.values, self.book.sheet(), ready.touched());
        let applied = self.book.apply(ready);
        self.cells.mark(before, self.book.sheet(), &applied.touched, applied.number)
    }

    // What is shown of a cell.
    fn shown(&mut self, cell: Cell) -> Result<Shown, Memory>
        requires inside { IsTrue (is_inside self.old.book.sheet.sizes cell) }
        requires kept { AreKept self.old.book.sheet self.old.cells }
        requires values { IfSome self.old.values (KeepsValuesOf self.old.book.sheet) }
        ensures shown { IfOk result
            (λ shown. shown ≡ shown_of (machine_of self.old.book self.old.cells.marks.items) cell) }
        ensures same_book { self.new.book ≡ self.old.book }
        ensures same_cells { self.new.cells ≡ self.old.cells }
        ensures values { OnOk result (IfSome self.new.values (KeepsValuesOf self.new.book.sheet)) }
    {
        let sheet = self.book.sheet();
        let mark = mark_at(sheet.sizes(), &self.cells.marks, cell);
        if mark != 0 {
            return Ok(Shown::Stale(mark));
        }
        let value = value_at(self.alloc, sheet, &mut self.values, cell)?;
        Ok(Shown::Value(value))
    }

    /// A look at a window.
    pub(crate) fn look(&mut self, firm: bool, window: Range) -> Result<Report, Memory>
        requires window { IsWindow self.old.book.sheet window }
        requires kept { AreKept self.old.book.sheet self.old.cells }
        requires values { IfSome self.old.values (KeepsValuesOf self.old.book.sheet) }
        ensures report { IfOk result (λ report. report
            ≡ report_of (machine_of self.old.book self.old.cells.marks.items) firm window) }
        ensures same_book { self.new.book ≡ self.old.book }
        ensures same_cells { self.new.cells ≡ self.old.cells }
        ensures values { OnOk result (IfSome self.new.values (KeepsValuesOf self.new.book.sheet)) }
    {
        let cells = window.cells() as u32;
        let mut board = Board::new(self.alloc, cells)?;
        board.begin(self.book.length(), window);
        for place in 0..window.cells() {
            let shown = self.shown(window.cell_at(place))?;
            board.push(shown);
        }
        Ok(Report { firm, board })
    }
}
