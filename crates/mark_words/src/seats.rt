#![tactic(auto)]

ghost use Rattle.std.specs.Prelude.{◌≡◌, ◌<◌, [], false, length, slice_index_or, slice_set};
ghost use Rattle.mark_words.specs.EditorMarks.{HasEditorMarks, KnowsAll, FitsWords};

use crate::tables::History;
use atomic_table::Seat as TableSeat;
use mark_core::Subject;

/// What the editor's seat knows at run time: the count of commits, and the mark of each place.
#[derive(Drop)]
pub(crate) struct EditorMarks {
    pub(crate) count: u64,
    pub(crate) marks: Vec<u64>,
}

impl EditorMarks {
    /// The mark of the place.
    pub(crate) fn mark(&self, place: u32) -> u64
        requires { place < length self.now.marks.items }
        ensures { result ≡ slice_index_or self.now.marks.items place result }
    {
        self.marks[place as usize]
    }

    /// The same with another mark of the place.
    pub(crate) fn with_mark(mut self, place: u32, number: u64) -> EditorMarks
        requires { place < length self.marks.items }
        ensures count { result.count ≡ self.count }
        ensures marks { result.marks.items ≡ slice_set self.marks.items place number }
    {
        self.marks[place as usize] = number;
        self
    }

    /// The same with another count.
    pub(crate) fn with_count(self, count: u64) -> EditorMarks
        ensures count { result.count ≡ count }
        ensures marks { result.marks.items ≡ self.marks.items }
    {
        let EditorMarks { count: _, marks } = self;
        EditorMarks { count, marks }
    }
}

/// The token of one actor. It has no bytes but, for the editor, its copy of the marks.
#[derive(Drop)]
pub struct Seat<S: Subject> {
    pub(crate) seat: TableSeat<S::Entry, History<S, S::Entry>>,
    pub(crate) editor_marks: Option<EditorMarks>,
    ghost live: { seat.me.0.doing.view.spent ≡ false },
    ghost bare: { seat.me.1 ≡ [] },
    ghost has_own: { HasEditorMarks seat.table_id.words seat.me.0.doing editor_marks },
    ghost knows_all: { KnowsAll seat.me.0.doing },
    ghost fits: { FitsWords seat.me.0.doing },
}
