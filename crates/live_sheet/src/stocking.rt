ghost use Rattle.std.specs.Prelude.{◌≡◌, ◌≤◌, ◌<◌, IfOk, IsTrue};
ghost use Rattle.sheet_refs.specs.Sizes.{is_inside, cell_count, AreNamed};
ghost use Rattle.mark_words.specs.Tokens.{IsSeatOf, places_of};
ghost use Rattle.recalc_workers.specs.Settling.{KeepsEditor};
ghost use Rattle.live_sheet.specs.Held.{IsEditorIn};
ghost use Rattle.live_sheet.specs.Stored.{AreStored, IsStored};
ghost use Rattle.live_sheet.specs.Worked.{AreWordsNamed};

use crate::crossing::{entries_cross, subject_crosses};
use crate::graph::LiveGraph;
use crate::meeting::{hear, learn};
use crate::naming::Naming;
use crate::settle_range::opening_sizes;
use crate::slots::put;
use crate::store::Store;
use crate::stored::Stored;
use edit_log::{Book, OverSheet, pair_laws};
use mark_core::Subject;
use mark_words::{Marks, Seat};
use sheet_refs::{Cell, Memory, Sizes};

/// How many cells are looked at for those to store.
const MOST_LOOKS: usize = 32_768;

/// How many of them behind the last one that was stored.
const MOST_BEHIND: u32 = 1_024;

/// What stands in a cell after the log of a book.
fn stored_of(book: &Book<LiveGraph>, cell: Cell) -> Result<Stored, Memory>
    ensures { IfOk result (IsStored book.now.opening book.now.log) }
{
    pair_laws();
    let count = book.length();
    let sheet = book.sheet();
    let _ = sheet.sizes();
    let content = sheet.content(cell).copy()?;
    Ok(Stored {
        cell,
        count,
        content,
        may_be_on_cycle: book.may_be_on_cycle(cell),
    })
}

/// The mark of a place, by a read with the editor's seat, which may know more then.
fn mark_at<S: Subject>(marks: &Marks<S>, editor: &mut Seat<S>, place: usize) -> u64
    requires table { IsSeatOf marks.now editor.old }
    requires there { place < places_of marks.now }
    requires small { places_of marks.now ≤ 1048576 }
    ensures table { IsSeatOf marks.now editor.new }
    ensures editor { KeepsEditor editor.old editor.new }
{
    let place = place as u32;
    let _clean = marks.read_clean(editor, place);
    let _word = marks.read_value(editor, place);
    marks.read_mark(editor, place)
}

/// Stores the cell at a place, where its mark is no less than this.
fn put_where_marked(
    marks: &Marks<OverSheet>,
    editor: &mut Seat<OverSheet>,
    book: &Book<LiveGraph>,
    sizes: Sizes,
    place: usize,
    least: u64,
    slots: &mut Vec<Option<Stored>>,
) -> Result<bool, Memory>
    requires table { IsSeatOf marks.now editor.old }
    requires places { places_of marks.now ≡ cell_count sizes }
    requires small { cell_count sizes ≤ 1048576 }
    requires named { AreNamed sizes }
    requires place { place < cell_count sizes }
    requires slots { AreStored book.now.opening book.now.log slots.old.items }
    ensures table { IsSeatOf marks.now editor.new }
    ensures editor { KeepsEditor editor.old editor.new }
    ensures slots { AreStored book.now.opening book.now.log slots.new.items }
{
    entries_cross();
    subject_crosses();
    if mark_at(marks, editor, place) < least {
        return Ok(false);
    }
    put(slots, stored_of(book, sizes.cell_at(place))?);
    Ok(true)
}

/// Stores the cells from a place on, row by row, whose marks are no less than that of the first: those that the edit
/// touched which was the last to touch that cell, and later ones. At most half of the slots are filled.
fn put_from(
    marks: &Marks<OverSheet>,
    editor: &mut Seat<OverSheet>,
    book: &Book<LiveGraph>,
    sizes: Sizes,
    first: usize,
    slots: &mut Vec<Option<Stored>>,
) -> Result<(), Memory>
    requires table { IsSeatOf marks.now editor.old }
    requires places { places_of marks.now ≡ cell_count sizes }
    requires small { cell_count sizes ≤ 1048576 }
    requires named { AreNamed sizes }
    requires first { first < cell_count sizes }
    requires slots { AreStored book.now.opening book.now.log slots.old.items }
    ensures table { IsSeatOf marks.now editor.new }
    ensures editor { KeepsEditor editor.old editor.new }
    ensures slots { AreStored book.now.opening book.now.log slots.new.items }
{
    entries_cross();
    subject_crosses();
    let least = mark_at(marks, editor, first);
    let cells = sizes.rows as usize * sizes.cols as usize;
    let mut room = slots.len() / 2;
    let mut behind = MOST_BEHIND;
    for place in first..cells.min(first + MOST_LOOKS) {
        if room == 0 {
            return Ok(());
        }
        if behind == 0 {
            return Ok(());
        }
        behind -= 1;
        if put_where_marked(marks, editor, book, sizes, place, least, slots)? {
            room -= 1;
            behind = MOST_BEHIND;
        }
    }
    Ok(())
}

impl<N: Naming> Store<N> {
    /// Lets a store know the log of a book, and what stands in a cell and in those behind it that edits touched with
    /// it: 128 for each worker, at most 1,024. It takes three loads for each cell that is looked at, at most 32,768.
    pub(crate) fn stock(
        &mut self,
        marks: &Marks<OverSheet>,
        editor: &mut Seat<OverSheet>,
        book: &Book<LiveGraph>,
        cell: Cell,
    ) -> Result<(), Memory>
        requires words { AreWordsNamed N.words N.opening marks.now }
        requires opening { book.now.opening ≡ N.opening }
        requires editor { IsEditorIn N.words N.opening book.now.log editor.old }
        requires inside { IsTrue (is_inside N.opening.sizes cell) }
        ensures table { IsSeatOf marks.now editor.new }
        ensures editor { KeepsEditor editor.old editor.new }
    {
        entries_cross();
        subject_crosses();
        let sizes = opening_sizes(book);
        hear(marks, editor, &mut self.seat);
        learn(marks, &mut self.seat, editor);
        self.count = book.length();
        put_from(
            marks,
            editor,
            book,
            sizes,
            sizes.place(cell),
            &mut self.slots,
        )
    }
}
