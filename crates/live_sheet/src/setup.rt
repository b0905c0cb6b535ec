ghost use Rattle.std.specs.Prelude.{◌≡◌, ◌≤◌, ◌+◌};
ghost use Rattle.edit_log.specs.Books.{IsOpenedWith};
ghost use Rattle.mark_words.specs.Opened.{HasOpened};
ghost use Rattle.recalc_workers.specs.Hands.{sizes_of, IsHandOf};
ghost use Rattle.sheet_refs.specs.Sizes.{cell_count};
ghost use Rattle.live_sheet.specs.Openings.{opening_codes};

use crate::graph::LiveGraph;
use edit_log::{Book, OverSheet};
use mark_words::{Marks, Seat};
use recalc_workers::{Hand, Jobs};
use std::sync::ledger::Blank;

/// What a live sheet is opened from: the words with the editor's seat, the queue of jobs, the book, and a blank ledger.
#[derive(Drop)]
pub struct Setup {
    pub(crate) marks: Marks<OverSheet>,
    pub(crate) editor: Seat<OverSheet>,
    pub(crate) jobs: Jobs,
    pub(crate) hand: Hand,
    pub(crate) book: Book<LiveGraph>,
    pub(crate) blank: Blank,
    pub(crate) clients: u32,
    pub(crate) workers: u32,
    ghost words: { HasOpened (λ opening. cell_count opening.sizes) book.opening
        (opening_codes book.opening) marks editor },
    ghost queue: { IsHandOf jobs hand },
    ghost sizes: { sizes_of jobs ≡ book.opening.sizes },
    ghost opened: { IsOpenedWith book.opening book },
    ghost parts: { blank.parts ≡ clients + 1 },
    ghost few: { clients ≤ 32 },
    ghost some: { 1 ≤ workers },
    ghost most: { workers ≤ 64 },
}
