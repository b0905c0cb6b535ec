ghost use Rattle.std.specs.Thread.{IsSend, IsSync};
ghost use Rattle.live_sheet.specs.contracts.desk.Desk.{the_row as desk_row};
ghost use Rattle.live_sheet.specs.contracts.live.Live.{the_row as live_row};
ghost use Rattle.live_sheet.specs.contracts.locked.Locked.{the_row as locked_row};
ghost use Rattle.live_sheet.specs.contracts.pass.Pass.{the_row as pass_row};

use crate::crossing::entries_cross;
use crate::graph::LiveGraph;
use crate::naming::Naming;
use crate::stored::Stored;
use edit_log::{OverSheet, book_crosses};
use mark_words::Marks;
use recalc_workers::Jobs;
use std::alloc::Global;
use std::marker::PhantomData;

// A type that threads may share is one by its values.
fn may_be_shared<T: Sync>()
    ensures { IsSync T.row }
{}

// A type that may go to another thread is one by its values.
fn may_be_sent<T: Send>()
    ensures { IsSend T.row }
{}

/// A pass may go to another thread. The search that proves this of a thread's closure doesn't find it by itself: a
/// function that hands passes to threads calls this first. So it is of a desk, and of a live sheet that threads share.
pub fn passes_cross<N: Naming + Send + Sync>()
    ensures { IsSend (pass_row N.row N.Naming.own N.Ledger) }
{
    entries_cross();
}

/// A desk may go to another thread.
pub fn desks_cross<N: Naming + Send + Sync>()
    ensures { IsSend (desk_row N.row N.Naming.own N.Ledger) }
{
    entries_cross();
    may_be_sent::<Vec<Option<Stored>>>();
}

// What lies behind the lock may go to another thread.
fn locked_crosses<N: Naming + Send + Sync>()
    ensures { IsSend (locked_row N.row N.Naming.own N.Ledger) }
{
    entries_cross();
    book_crosses::<LiveGraph>();
}

/// Threads may share a live sheet.
pub fn live_crosses<N: Naming + Send + Sync>()
    ensures { IsSync (live_row N.row N.Naming.own N.Ledger) }
{
    may_be_shared::<Marks<OverSheet>>();
    may_be_shared::<Jobs>();
    may_be_shared::<Global>();
    may_be_shared::<PhantomData<N>>();
    locked_crosses::<N>();
}
