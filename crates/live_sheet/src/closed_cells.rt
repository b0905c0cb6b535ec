ghost use Rattle.std.specs.Prelude.{◌≡◌, ◌≤◌, [], Some, IsTrue, length, slice_get, All, vec_capacity};
ghost use Rattle.edit_log.specs.Touches.{TouchesPlace};
ghost use Rattle.mark_core.specs.Marks.{IsPrefix};
ghost use Rattle.mark_words.specs.Tokens.{IsSeatOf, subject_of, topic_of, places_of, view_of, log_of};
ghost use Rattle.sheet_model.specs.Logs.{after};
ghost use Rattle.sheet_model.specs.Values.{value_of};
ghost use Rattle.sheet_refs.specs.Cells.{Position};
ghost use Rattle.sheet_refs.specs.Sizes.{cell_count, is_inside, place_of};
ghost use Rattle.value_core.specs.Values.{code_of};
ghost use Rattle.live_sheet.specs.Closed.{ReadsAreLegal};
ghost use Rattle.live_sheet.specs.Ranges.{KnowsAll};
ghost use Rattle.live_sheet.specs.Stale.{IsFree};

use crate::closed_words::close_words;
use crate::crossing::{entries_cross, subject_crosses};
use edit_log::OverSheet;
use mark_words::{Marks, Seat};

/// Closes the words of a sheet of which the editor's seat knows each cell as clean: lists the codes of the values that
/// the cells have after the log of that seat, row by row. What the other seats know is a part of that log, and each
/// read of any of them is legal over it.
pub(crate) fn close_cells(
    marks: Marks<OverSheet>,
    editor: Seat<OverSheet>,
    others: Vec<Seat<OverSheet>>,
    cells: u32,
    values: Vec<u64>,
) -> Vec<u64>
    requires table { IsSeatOf marks editor }
    requires free { IsFree editor }
    requires tables { All (λ other. IsSeatOf marks other) others.items }
    requires places { cells ≡ places_of marks }
    requires cells { cells ≡ cell_count (subject_of marks).sizes }
    requires known { KnowsAll (TouchesPlace (subject_of marks)) (subject_of marks).sizes (view_of editor) }
    requires none { values.items ≡ [] }
    requires room { cells ≤ vec_capacity values }
    ensures count { length result.items ≡ cells }
    ensures values { (cell : Position) → IsTrue (is_inside (subject_of marks).sizes cell)
        → slice_get result.items (place_of (subject_of marks).sizes cell)
        ≡ Some (code_of (value_of (after (subject_of marks) (log_of editor)) cell)) }
    ensures prefixes { All (λ other. IsPrefix (log_of other) (log_of editor)) others.items }
    ensures legal { All (ReadsAreLegal (subject_of marks) (topic_of marks).opening.value (log_of editor))
        others.items }
{
    entries_cross();
    subject_crosses();
    close_words(marks, editor, others, cells, values)
}
