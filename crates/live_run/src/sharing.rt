ghost use Rattle.std.specs.Thread.{IsSend};
ghost use Rattle.live_run.specs.contracts.client.Client.{the_row as client_row};

use crate::order::Order;
use live_sheet::{Naming, passes_cross};
use sheet_model::Report;

// A type that may go to another thread is one by its values.
fn may_go<T: Send>()
    ensures { IsSend T.row }
{}

/// A client's task may go to another thread.
pub(crate) fn clients_cross<N: Naming + Send + Sync>()
    ensures { IsSend (client_row N.row N.Naming.own N.Ledger) }
{
    may_go::<Vec<Order>>();
    may_go::<Vec<Report>>();
    passes_cross::<N>();
}
