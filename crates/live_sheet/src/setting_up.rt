ghost use Rattle.std.specs.Prelude.{◌≤◌, IfOk};
ghost use Rattle.edit_log.specs.Books.{IsBook, IsOpenedWith};
ghost use Rattle.mark_words.specs.Opened.{HasOpened};
ghost use Rattle.sheet_refs.specs.Sizes.{cell_count};
ghost use Rattle.live_sheet.specs.Graphs.{live_pairs};
ghost use Rattle.live_sheet.specs.Openings.{opening_codes as codes_at_opening};
ghost use Rattle.live_sheet.specs.Setups.{IsSetupOf};

use crate::codes::opening_codes;
use crate::crossing::subject_crosses;
use crate::graph::LiveGraph;
use crate::setup::Setup;
use edit_log::{Book, OverSheet};
use mark_words::{Marks, Seat};
use recalc_workers::Jobs;
use sheet_model::Sheet;
use sheet_refs::Memory;
use std::alloc::Global;
use std::sync::ledger::Blank;

/// The words of a sheet as it opens, and the editor's seat.
#[tactic(auto, using(crate::proofs::OpeningLemmas::opens))]
fn open_marks(alloc: Global, sheet: &Sheet) -> Result<(Marks<OverSheet>, Seat<OverSheet>), Memory>
    ensures { IfOk result (λ r. HasOpened (λ opening. cell_count opening.sizes) sheet.now
        (codes_at_opening sheet.now) r.0 r.1) }
{
    subject_crosses();
    let codes = opening_codes(alloc, sheet)?;
    let _sizes = sheet.sizes();
    let subject = OverSheet::of(sheet);
    match Marks::open(alloc, subject, &codes) {
        Ok(opened) => Ok(opened),
        Err(_) => Err(Memory),
    }
}

/// A book of the sheet over the program's graph. It keeps the values of the constants from the start, so that each edit
/// forgets those of the cells that it touches.
fn open_book(alloc: Global, sheet: Sheet) -> Result<Book<LiveGraph>, Memory>
    ensures opened { IfOk result (IsOpenedWith sheet) }
    ensures kept { IfOk result (IsBook live_pairs) }
{
    let mut book = Book::open(alloc, sheet, LiveGraph::new(alloc))?;
    let values = book.take_values()?;
    book.keep_values(values);
    Ok(book)
}

impl Setup {
    /// A setup of a sheet for so many clients and workers. It takes the time of the sheet's graph, and of one load of
    /// each cell. After `Memory` the sheet is dropped.
    pub fn new(alloc: Global, sheet: Sheet, clients: u32, workers: u32) -> Result<Setup, Memory>
        requires clients { clients ≤ 32 }
        requires some { 1 ≤ workers }
        requires most { workers ≤ 64 }
        ensures { IfOk result (IsSetupOf sheet clients workers) }
    {
        let (marks, editor) = open_marks(alloc, &sheet)?;
        let sizes = sheet.sizes();
        let (jobs, hand) = Jobs::new(alloc, sizes.rows, sizes.cols)?;
        let book = open_book(alloc, sheet)?;
        let blank = Blank::new(u64::from(clients) + 1);
        Ok(Setup {
            marks,
            editor,
            jobs,
            hand,
            book,
            blank,
            clients,
            workers,
        })
    }
}
