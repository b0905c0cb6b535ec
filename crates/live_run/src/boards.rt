ghost use Rattle.std.specs.Prelude.{◌≤◌, length, IfOk, OnOk};
ghost use Rattle.sheet_refs.specs.Cells.{cells_of};
ghost use Rattle.live_run.specs.Parts.{AddsReport, IsAnswerable, IsReportOf};

use edit_script::Command;
use sheet_model::{Board, Report};
use sheet_refs::{Memory, Range};
use std::alloc::Global;

/// A report of a look at a window that is yet to be made: its board has room for the window.
fn report_for(alloc: Global, firm: bool, window: Range) -> Result<Report, Memory>
    requires { length (cells_of window) ≤ 65536 }
    ensures { IfOk result (IsReportOf firm window) }
{
    let cells = window.cells() as u32;
    let board = Board::new(alloc, cells)?;
    Ok(Report { firm, board })
}

/// Adds a report for the command to some, where it is a look.
pub(crate) fn add_report(
    alloc: Global,
    command: &Command,
    reports: &mut Vec<Report>,
) -> Result<(), Memory>
    requires { IsAnswerable command.now }
    ensures { OnOk result (AddsReport command.now reports.old.items reports.new.items) }
{
    match command {
        Command::Look(window) => {
            let report = report_for(alloc, false, *window)?;
            reports.push(report)?;
            Ok(())
        }
        Command::Firm(window) => {
            let report = report_for(alloc, true, *window)?;
            reports.push(report)?;
            Ok(())
        }
        Command::Put(_) | Command::Work(_) => Ok(()),
    }
}
