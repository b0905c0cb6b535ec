ghost use Rattle.std.specs.Thread.{IsSend, IsSync};
ghost use Rattle.edit_log.specs.contracts.over_sheet.OverSheet.{the_row as subject_row};
ghost use Rattle.sheet_model.specs.contracts.entry.Entry.{the_row as entry_row};

use edit_log::OverSheet;
use sheet_model::Entry;

// A type that may go to another thread, and be shared with it, is one by its values.
fn may_cross<T: Send + Sync>()
    ensures send { IsSend T.row }
    ensures sync { IsSync T.row }
{}

/// Threads may hand on and share the subject of a sheet.
pub fn subject_crosses()
    ensures send { IsSend subject_row }
    ensures sync { IsSync subject_row }
{
    may_cross::<OverSheet>();
}

/// And the entries of a log. Search finds this here, and not beside the facts of a turn or of settling.
pub fn entries_cross()
    ensures send { IsSend entry_row }
    ensures sync { IsSync entry_row }
{
    may_cross::<Entry>();
}
