ghost use Rattle.std.specs.Prelude.{◌≡◌, ◌<◌, ◌≤◌, length, IfOk, IfErr, OnOk, vec_len, vec_capacity};
ghost use Rattle.edit_log.specs.Rows.{IsInside};
ghost use Rattle.sheet_model.specs.Edits.{IsFor};
ghost use Rattle.sheet_refs.specs.Cells.{cells_of};
ghost use Rattle.live_sheet.specs.Passes.{IsLookOf};
ghost use Rattle.live_run.specs.Client.{HasMade, HasMadeEdit, HasShown, HasShownFirmly, IsCutAt};
ghost use Rattle.live_run.specs.Client.{IsEditCut, IsLook, IsOrderFor};
ghost use Rattle.live_run.specs.declared.cut.Cut.TheVariants as cut;

use crate::cut::Cut;
use crate::order::Order;
use crate::watch::Watch;
use live_sheet::{EditRefused, Live, Naming, Pass};
use recalc_workers::Gate;
use sheet_model::{Board, Edit, Report};
use sheet_refs::{Memory, Range};
use std::sync::Wait;
use std::thread::Threads;

/// Makes an edit. Its jobs are in the queue when it wakes the workers that sleep.
fn put<N: Naming, R: Wait>(
    rt: &R,
    live: &Live<N>,
    watch: &Watch,
    pass: &mut Pass<N>,
    edit: Edit,
) -> Result<(), Cut>
    requires { IsFor N.opening edit }
    ensures made { OnOk result (HasMadeEdit N.opening edit pass.old pass.new) }
    ensures cut { IfErr result (IsEditCut pass.old pass.new) }
{
    // Says that what it writes may stand in a sheet.
    let _ = edit.changes();
    match live.edit(rt, pass, edit) {
        Ok(_) => {
            watch.wake();
            Ok(())
        }
        Err(EditRefused::Memory) => Err(Cut::Memory),
        Err(EditRefused::LogFull { .. }) => Err(Cut::FullLog),
        Err(EditRefused::OutOfSheet { .. }) => unreachable!(),
    }
}

/// Looks at a window.
fn look<N: Naming>(live: &Live<N>, pass: &mut Pass<N>, window: Range, board: Board) -> Board
    requires inside { IsInside N.opening.sizes window }
    requires room { length (cells_of window) ≤ board.room }
    ensures { IsLookOf N.opening.sizes window pass.old pass.new result }
{
    let mut board = board;
    live.look(pass, window, &mut board);
    board
}

/// Looks at a window once all of it is computed.
fn firm<N: Naming, R: Threads + Wait + Sync, T: Gate + Sync>(
    rt: &R,
    live: &Live<N>,
    gate: &T,
    pass: &mut Pass<N>,
    window: Range,
    board: Board,
) -> Result<Board, Cut>
    requires inside { IsInside N.opening.sizes window }
    requires room { length (cells_of window) ≤ board.room }
    ensures shown { IfOk result (HasShownFirmly N.opening window pass.old pass.new) }
    ensures cut { IfErr result (λ why. why ≡ cut.Memory) }
{
    let mut board = board;
    match live.firm(rt, pass, window, &mut board, gate) {
        Ok(()) => Ok(board),
        Err(_) => Err(Cut::Memory),
    }
}

/// Looks at a window, once all of it is computed where the look is firm.
fn show<N: Naming, R: Threads + Wait + Sync, T: Gate + Sync>(
    rt: &R,
    live: &Live<N>,
    gate: &T,
    pass: &mut Pass<N>,
    is_firm: bool,
    window: Range,
    board: Board,
) -> Result<Board, Cut>
    requires inside { IsInside N.opening.sizes window }
    requires room { length (cells_of window) ≤ board.room }
    ensures shown { IfOk result (HasShown N.opening is_firm window pass.old pass.new) }
    ensures cut { IfErr result (λ why. why ≡ cut.Memory) }
{
    if is_firm {
        firm(rt, live, gate, pass, window, board)
    } else {
        Ok(look(live, pass, window, board))
    }
}

/// Follows an order: makes the edit, or looks and adds a report, for which there is room.
pub(crate) fn follow<N: Naming, R: Threads + Wait + Sync, T: Gate + Sync>(
    rt: &R,
    live: &Live<N>,
    watch: &Watch,
    gate: &T,
    pass: &mut Pass<N>,
    order: Order,
    reports: &mut Vec<Report>,
) -> Result<(), Cut>
    requires fits { IsOrderFor N.opening order }
    requires room { IsLook order → vec_len reports.old < vec_capacity reports.old }
    ensures made { OnOk result
        (HasMade N.opening order pass.old pass.new reports.old.items reports.new.items) }
    ensures cut { IfErr result (IsCutAt order pass.old pass.new) }
    ensures room { vec_capacity reports.new ≡ vec_capacity reports.old }
{
    match order {
        Order::Put(edit) => put(rt, live, watch, pass, edit),
        Order::Look {
            firm,
            window,
            board,
        } => {
            // Says that the window has a cell.
            let _ = window.head();
            let board = show(rt, live, gate, pass, firm, window, board)?;
            reports.push_reserved(Report { firm, board });
            Ok(())
        }
    }
}
