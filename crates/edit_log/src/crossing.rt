ghost use Rattle.std.specs.Thread.{IsSend};
ghost use Rattle.edit_log.specs.contracts.book.Book.{the_row};

use graph_walk::Graph;
use sheet_model::{Entry, Sheet};
use sheet_refs::RectSet;

// A type that may go to another thread is one by its values.
fn may_cross<T: Send>()
    ensures { IsSend T.row }
{}

/// A book may go to another thread where its graph may, so threads may share one under a lock.
///
/// The search that proves this of a thread's closure doesn't find it for a book by itself: a function that
/// hands a book to a thread calls this first.
pub fn book_crosses<G: Graph + Send>()
    ensures { IsSend (the_row G.row G.Graph) }
{
    may_cross::<Sheet>();
    may_cross::<Vec<Entry>>();
    may_cross::<RectSet>();
}
