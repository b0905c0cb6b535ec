ghost use Rattle.std.specs.Prelude.{◌≡◌, ◌≤◌, ◌<◌, length, IsTrue};
ghost use Rattle.edit_log.specs.Rows.{IsInside};
ghost use Rattle.sheet_refs.specs.Cells.{IsIn, Position, cells_of};
ghost use Rattle.sheet_refs.specs.Sizes.{cell_count, is_inside};
ghost use Rattle.mark_words.specs.Tokens.{IsSeatOf, subject_of, places_of, view_of, log_of};
ghost use Rattle.recalc_workers.specs.Settling.{KeepsEditor, KnowsPlace};
ghost use Rattle.sheet_model.specs.Logs.{after, IsOfSheet};
ghost use Rattle.sheet_model.specs.Sheets.{IsSheet};
ghost use Rattle.sheet_model.specs.Values.{value_of};
ghost use Rattle.live_sheet.specs.Firm.{AreOfWorth, ShowsValues};
ghost use Rattle.live_sheet.specs.Stale.{IsFree, KnowsCell};

use crate::loads::Loads;
use crate::reading::show;
use mark_core::Subject;
use mark_words::{Marks, Seat};
use sheet_model::{Board, SheetSubject, Shown, value_laws};
use sheet_refs::{Cell, Range, Sizes};

/// Reads a place that the editor's seat knows as clean, by three loads: its value is the worth of the place after the
/// log.
fn read_known<S: Subject>(marks: &Marks<S>, editor: &mut Seat<S>, place: u32) -> Loads
    requires table { IsSeatOf marks.now editor.old }
    requires free { IsFree editor.old }
    requires there { place < places_of marks.now }
    requires known { KnowsPlace (S.touches (subject_of marks.now)) (view_of editor.old) place }
    ensures table { IsSeatOf marks.now editor.new }
    ensures editor { KeepsEditor editor.old editor.new }
    ensures loads { AreOfWorth (S.worth (subject_of marks.now)) (log_of editor.old) place result }
{
    let clean = marks.read_clean(editor, place);
    let word = marks.read_value(editor, place);
    let mark = marks.read_mark(editor, place);
    Loads { clean, word, mark }
}

/// The worths of the places are those of the sheet's values.
fn is_of_sheet<S: SheetSubject>(_marks: &Marks<S>)
    ensures { IsOfSheet (S.opening (subject_of _marks.now))
        (S.places (subject_of _marks.now)) (S.worth (subject_of _marks.now)) }
{}

/// What is shown of a cell that the editor's seat knows as clean: its value after the log.
fn show_cell<S: SheetSubject>(
    marks: &Marks<S>,
    editor: &mut Seat<S>,
    sizes: Sizes,
    number: u64,
    cell: Cell,
) -> Shown
    requires table { IsSeatOf marks.now editor.old }
    requires free { IsFree editor.old }
    requires places { places_of marks.now ≡ cell_count sizes }
    requires small { cell_count sizes ≤ 1048576 }
    requires opening { (S.opening (subject_of marks.now)).sizes ≡ sizes }
    requires sheet { IsSheet (after (S.opening (subject_of marks.now)) (log_of editor.old)) }
    requires number { number ≡ length (log_of editor.old) }
    requires inside { IsTrue (is_inside sizes cell) }
    requires known { KnowsCell (S.touches (subject_of marks.now)) sizes (view_of editor.old) cell }
    ensures table { IsSeatOf marks.now editor.new }
    ensures editor { KeepsEditor editor.old editor.new }
    ensures value { result ≡ Shown.Value (value_of (after (S.opening (subject_of marks.now))
        (log_of editor.old)) cell) }
{
    value_laws();
    is_of_sheet(marks);
    let place = sizes.place(cell) as u32;
    show(number, read_known(marks, editor, place))
}

/// Shows a window of cells that the editor's seat knows as clean: the value of each after the log.
pub(crate) fn show_window<S: SheetSubject>(
    marks: &Marks<S>,
    editor: &mut Seat<S>,
    sizes: Sizes,
    number: u64,
    window: Range,
    board: &mut Board,
)
    requires table { IsSeatOf marks.now editor.old }
    requires free { IsFree editor.old }
    requires places { places_of marks.now ≡ cell_count sizes }
    requires small { cell_count sizes ≤ 1048576 }
    requires opening { (S.opening (subject_of marks.now)).sizes ≡ sizes }
    requires sheet { IsSheet (after (S.opening (subject_of marks.now)) (log_of editor.old)) }
    requires number { number ≡ length (log_of editor.old) }
    requires inside { IsInside sizes window }
    requires known { (cell : Position) → IsIn cell window
        → KnowsCell (S.touches (subject_of marks.now)) sizes (view_of editor.old) cell }
    requires room { length (cells_of window) ≤ board.old.room }
    ensures table { IsSeatOf marks.now editor.new }
    ensures editor { KeepsEditor editor.old editor.new }
    ensures shows { ShowsValues (after (S.opening (subject_of marks.now)) (log_of editor.old))
        number window board.old.room board.new }
{
    board.begin(number, window);
    let mut cell = window.head();
    for _place in 0..window.cells() {
        board.push(show_cell(marks, editor, sizes, number, cell));
        cell = window.cell_behind(cell);
    }
}
