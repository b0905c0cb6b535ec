ghost use Rattle.std.specs.Prelude.{◌≡◌, true, None, IsSome};
ghost use Rattle.mark_words.specs.Tokens.{IsSeatOf, edits_of, is_editor, log_of, subject_of};

use crate::crossing::{entries_cross, subject_crosses};
use crate::lending::lend;
use edit_log::{Book, OverSheet, place_laws, touch_laws};
use graph_walk::on_cycle;
use mark_words::{Marks, Seat};
use plain_graph::PlainGraph;
use recalc_workers::{Office, Task};
use sheet_model::{Entry, MAX_ENTRIES, log_laws};
use sheet_refs::{Cell, Memory};
use std::alloc::Global;
use std::sync::Wait;

/// An office that owns a book and the editor's seat. Where it has an edit that comes next, it marks the edit's first
/// cell once it has answered a task, and then never goes on with it: so a worker meets an edit whose marks are being
/// made.
#[derive(Drop)]
pub struct BookOffice<'a> {
    pub(crate) marks: &'a Marks<OverSheet>,
    pub(crate) editor: Seat<OverSheet>,
    pub(crate) book: Book<PlainGraph>,
    pub(crate) next: Option<Entry>,
    pub(crate) alloc: Global,
    ghost table: { IsSeatOf marks.now editor },
    ghost subject: { subject_of marks.now ≡ book.opening },
    ghost log: { log_of editor ≡ book.log },
    ghost edits: { is_editor editor ≡ true },
    ghost idle: { IsSome next → (edits_of editor).pending ≡ None },
}

/// Marks the first cell that an entry changes, where it is one of the sheet and the log has room.
fn mark_first(
    marks: &Marks<OverSheet>,
    editor: &mut Seat<OverSheet>,
    book: &Book<PlainGraph>,
    entry: &Entry,
)
    requires table { IsSeatOf marks.now editor.old }
    requires editor { is_editor editor.old ≡ true }
    requires subject { subject_of marks.now ≡ book.now.opening }
    requires log { log_of editor.old ≡ book.now.log }
    requires idle { (edits_of editor.old).pending ≡ None }
    ensures table { IsSeatOf marks.now editor.new }
    ensures editor { is_editor editor.new ≡ true }
    ensures log { log_of editor.new ≡ log_of editor.old }
{
    entries_cross();
    subject_crosses();
    place_laws();
    touch_laws();
    log_laws();
    let length = book.length();
    let sheet = book.sheet();
    let sizes = sheet.sizes();
    let changes = entry.edit.changes();
    if changes.is_empty() {
        return;
    }
    let first = &changes[0];
    let cell = first.cell;
    if length == MAX_ENTRIES as u64 || !sizes.holds(cell) {
        return;
    }
    let place = sizes.place(cell) as u32;
    marks.mark(editor, entry, place, length + 1);
}

impl<'a> Office<OverSheet> for BookOffice<'a> {
    ghost use Rattle.recalc_workers.specs.Offices.{words_for};

    ghost words = { λ office. words_for office.marks.now };

    ghost opening = { λ office. office.book.opening };

    fn job<R: Wait>(
        &mut self,
        rt: &R,
        cell: Cell,
        seat: &mut Seat<OverSheet>,
    ) -> Result<Task, Memory> {
        entries_cross();
        subject_crosses();
        lend(self.marks, &mut self.editor, seat);
        let content = self.book.sheet().content(cell).copy()?;
        let length = self.book.length();
        if let Some(entry) = self.next.take() {
            mark_first(self.marks, &mut self.editor, &self.book, &entry);
        }
        Ok(Task { content, length })
    }

    fn circular<R: Wait>(
        &mut self,
        rt: &R,
        cell: Cell,
        seat: &mut Seat<OverSheet>,
    ) -> Result<bool, Memory> {
        entries_cross();
        subject_crosses();
        lend(self.marks, &mut self.editor, seat);
        on_cycle(self.alloc, self.book.graph(), cell)
    }
}
