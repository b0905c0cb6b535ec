ghost use Rattle.std.specs.Prelude.{◌≡◌, ◌≤◌, ◌+◌, ◌∷◌, [], None, true, length, All, IsTrue};
ghost use Rattle.edit_log.specs.Touches.{TouchesPlace};
ghost use Rattle.sheet_refs.specs.Sizes.{cell_count, is_inside, place_of};
ghost use Rattle.mark_words.specs.Tokens.{IsSeatOf, places_of, subject_of, doing_of, own_steps};
ghost use Rattle.mark_words.specs.Tokens.{is_editor, edits_of, log_of};
ghost use Rattle.mark_words.specs.Doing.{with_mark};
ghost use Rattle.mark_words.specs.Editing.{IsIdleFor};
ghost use Rattle.live_sheet.specs.Edits.{HasMarked, marks_of};
ghost use Rattle.live_sheet.specs.Steps.{StepsAre, marked};

use crate::crossing::{entries_cross, subject_crosses};
use edit_log::OverSheet;
use mark_words::{Marks, Seat};
use sheet_model::Entry;
use sheet_refs::{Cell, Sizes};

/// Marks one cell for the entry.
fn mark_cell(
    marks: &Marks<OverSheet>,
    editor: &mut Seat<OverSheet>,
    sizes: Sizes,
    entry: &Entry,
    number: u64,
    cell: Cell,
)
    requires table { IsSeatOf marks.now editor.old }
    requires editor { is_editor editor.old ≡ true }
    requires idle { IsIdleFor (doing_of editor.old) entry.now }
    requires places { places_of marks.now ≡ cell_count sizes }
    requires small { cell_count sizes ≤ 1048576 }
    requires number { number ≡ length (log_of editor.old) + 1 }
    requires room { number ≤ 1048576 }
    requires inside { IsTrue (is_inside sizes cell) }
    requires touched { TouchesPlace (subject_of marks.now) (log_of editor.old) entry.now
        (place_of sizes cell) }
    ensures same { IsSeatOf marks.now editor.new }
    ensures doing { doing_of editor.new
        ≡ with_mark (doing_of editor.old) entry.now (place_of sizes cell) number }
    ensures step { StepsAre (own_steps editor.old) (marked entry.now number (place_of sizes cell) ∷ [])
        (own_steps editor.new) }
{
    subject_crosses();
    entries_cross();
    marks.mark(editor, entry, sizes.place(cell) as u32, number);
}

/// Marks the cells for the entry, one after the other.
pub(crate) fn mark_cells(
    marks: &Marks<OverSheet>,
    editor: &mut Seat<OverSheet>,
    sizes: Sizes,
    entry: &Entry,
    number: u64,
    cells: &[Cell],
)
    requires table { IsSeatOf marks.now editor.old }
    requires editor { is_editor editor.old ≡ true }
    requires idle { (edits_of editor.old).pending ≡ None }
    requires places { places_of marks.now ≡ cell_count sizes }
    requires small { cell_count sizes ≤ 1048576 }
    requires number { number ≡ length (log_of editor.old) + 1 }
    requires room { number ≤ 1048576 }
    requires inside { All (λ cell. IsTrue (is_inside sizes cell)) cells.now }
    requires touched { All (λ cell. TouchesPlace (subject_of marks.now) (log_of editor.old) entry.now
        (place_of sizes cell)) cells.now }
    ensures same { IsSeatOf marks.now editor.new }
    ensures marked { HasMarked sizes entry.now cells.now (doing_of editor.old) (doing_of editor.new) }
    ensures steps { StepsAre (own_steps editor.old) (marks_of sizes entry.now number cells.now)
        (own_steps editor.new) }
{
    for cell in cells {
        mark_cell(marks, editor, sizes, entry, number, *cell);
    }
}
