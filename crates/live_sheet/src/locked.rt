ghost use Rattle.std.specs.Prelude.{◌≡◌, ◌<◌, length, All};
ghost use Rattle.live_sheet.specs.Held.{IsEditorIn, IsDeskIn};

use crate::graph::LiveGraph;
use crate::naming::Naming;
use crate::rest::Rest;
use edit_log::{Book, OverSheet};
use mark_words::Seat;
use recalc_workers::Desk as SettlingDesk;
use std::sync::ledger::Book as LedgerBook;

/// What lies behind the lock: the book, the editor's seat, the desks that settle, and the book of the ledger of
/// accepted edits with the share of it that no client has. The editor's seat knows the book's log and nothing is
/// pending; the log has as many entries as the ledger has counted; and all belong to what `N` names.
#[derive(Drop)]
pub(crate) struct Locked<N: Naming> {
    pub(crate) book: Book<LiveGraph>,
    pub(crate) editor: Seat<OverSheet>,
    pub(crate) desks: Vec<SettlingDesk<OverSheet>>,
    pub(crate) counted: LedgerBook<N>,
    pub(crate) rest: Rest<N>,
    ghost opening: { book.opening ≡ N.opening },
    ghost seat: { IsEditorIn N.words N.opening book.log editor },
    ghost settling: { All (IsDeskIn N.words N.queue N.opening N.opening.sizes) desks.items },
    ghost some: { 0 < length desks.items },
    ghost total: { length book.log ≡ counted.total },
}
