ghost use Rattle.std.specs.Prelude.{◌≡◌, ◌≤◌, ◌+◌, ◌∷◌, [], None, Some, IsSome, true, length};
ghost use Rattle.edit_log.specs.Books.{IsPreparedFor, HasApplied};
ghost use Rattle.edit_log.specs.Touches.{TouchesPlace};
ghost use Rattle.sheet_refs.specs.Sizes.{cell_count};
ghost use Rattle.mark_words.specs.Tokens.{IsSeatOf, places_of, subject_of, is_editor, edits_of};
ghost use Rattle.mark_words.specs.Tokens.{log_of, doing_of, own_steps};
ghost use Rattle.mark_words.specs.Editing.{IsAllMarked};
ghost use Rattle.sheet_model.specs.declared.entry.Entry.{Entry};
ghost use Rattle.live_sheet.specs.Edits.{CommitsPending, HasEntered, HasMarked, IsReady, marks_of};
ghost use Rattle.live_sheet.specs.Steps.{StepsAre, committed};

use crate::crossing::{entries_cross, subject_crosses};
use crate::graph::LiveGraph;
use crate::marking::mark_cells;
use edit_log::{Applied, Book, OverSheet, Prepared};
use mark_words::{Marks, Seat};
use sheet_refs::Sizes;

/// Marks each cell that a prepared edit touches for its entry, which is ready to be committed then.
fn mark_all(
    marks: &Marks<OverSheet>,
    editor: &mut Seat<OverSheet>,
    sizes: Sizes,
    prepared: &Prepared,
)
    requires table { IsSeatOf marks.now editor.old }
    requires editor { is_editor editor.old ≡ true }
    requires idle { (edits_of editor.old).pending ≡ None }
    requires places { places_of marks.now ≡ cell_count sizes }
    requires small { cell_count sizes ≤ 1048576 }
    requires sizes { sizes ≡ (subject_of marks.now).sizes }
    requires prepared { IsPreparedFor (subject_of marks.now) (log_of editor.old) prepared.now }
    ensures same { IsSeatOf marks.now editor.new }
    ensures marked { HasMarked sizes prepared.now.entry prepared.now.touched
        (doing_of editor.old) (doing_of editor.new) }
    ensures ready { IsReady (places_of marks.now) (TouchesPlace (subject_of marks.now))
        prepared.now.entry (doing_of editor.new) }
    ensures steps { StepsAre (own_steps editor.old)
        (marks_of sizes prepared.now.entry prepared.now.number prepared.now.touched)
        (own_steps editor.new) }
{
    mark_cells(
        marks,
        editor,
        sizes,
        prepared.entry(),
        prepared.number(),
        prepared.touched(),
    );
}

/// Commits the entry for which all is marked.
fn commit(marks: &Marks<OverSheet>, editor: &mut Seat<OverSheet>) -> u64
    requires table { IsSeatOf marks.now editor.old }
    requires editor { is_editor editor.old ≡ true }
    requires pending { IsSome (edits_of editor.old).pending }
    requires marked { IsAllMarked (places_of marks.now)
        (TouchesPlace (subject_of marks.now)) (doing_of editor.old) }
    ensures same { IsSeatOf marks.now editor.new }
    ensures committed { CommitsPending (doing_of editor.old) (doing_of editor.new) }
    ensures steps { (entry : Entry) → (edits_of editor.old).pending ≡ Some entry
        → StepsAre (own_steps editor.old)
        (committed entry (length (log_of editor.old) + 1) ∷ []) (own_steps editor.new) }
{
    subject_crosses();
    entries_cross();
    marks.commit(editor)
}

/// Makes a prepared edit: marks each cell that it touches, makes it in the book, and then commits it. Nothing is
/// refused.
pub(crate) fn enter(
    marks: &Marks<OverSheet>,
    editor: &mut Seat<OverSheet>,
    book: &mut Book<LiveGraph>,
    sizes: Sizes,
    prepared: Prepared,
) -> Applied
    requires table { IsSeatOf marks.now editor.old }
    requires editor { is_editor editor.old ≡ true }
    requires idle { (edits_of editor.old).pending ≡ None }
    requires places { places_of marks.now ≡ cell_count sizes }
    requires small { cell_count sizes ≤ 1048576 }
    requires sizes { sizes ≡ (subject_of marks.now).sizes }
    requires subject { subject_of marks.now ≡ book.old.opening }
    requires log { log_of editor.old ≡ book.old.log }
    requires prepared { IsPreparedFor book.old.opening book.old.log prepared }
    requires room { length prepared.entry.edit ≤ book.old.spare }
    ensures same { IsSeatOf marks.now editor.new }
    ensures applied { HasApplied prepared.entry book.old book.new }
    ensures entered { HasEntered sizes prepared.entry prepared.number prepared.touched
        editor.old editor.new }
    ensures number { result.number ≡ prepared.number }
    ensures touched { result.touched.items ≡ prepared.touched }
{
    mark_all(marks, editor, sizes, &prepared);
    let applied = book.apply(prepared);
    commit(marks, editor);
    applied
}
