ghost use Rattle.std.specs.Prelude.{◌≡◌, ◌++◌, ◌<◌, ◌≤◌, length, slice_index_or, All, is_ok};
ghost use Rattle.std.specs.Fmt.{decimal};
ghost use Rattle.sheet_refs.specs.Cells.{IsIn, cells_of};
ghost use Rattle.sheet_model.specs.declared.board.Shown.TheVariants as shown;
ghost use Rattle.text_pieces.specs.Pieces.{HandsOut};
ghost use Rattle.window_text.specs.Reports.{board_text, place_in, play_text, report_text, shown_text};
ghost use Rattle.sheet_model.specs.Boards.{IsFull};
ghost use Rattle.window_text.specs.Reports.{report_kind, window_text};
ghost use Rattle.window_text.specs.Texts.{row_text};

use crate::pieces::{Stopped, send_bytes, send_decimal, send_range_name, send_value};
use sheet_model::{Board, Labels, Report, Shown};
use sheet_refs::Range;

/// Hands out reports, in order.
pub(crate) fn send_reports<F: FnMut(&[u8]) -> bool>(
    reports: &[Report],
    labels: &Labels,
    to: &mut F,
) -> Result<(), Stopped>
    requires callable { F.IsAlwaysCallable to.old }
    requires full { All (λ report. IsFull report.board) reports.now }
    ensures sent { HandsOut F.FnMut to.old (play_text labels.now reports.now) (is_ok result) to.new }
    ensures callable { F.IsAlwaysCallable to.new }
{
    for report in reports {
        send_report(report, labels, to)?;
    }
    Ok(())
}

// Hands out a report.
fn send_report<F: FnMut(&[u8]) -> bool>(
    report: &Report,
    labels: &Labels,
    to: &mut F,
) -> Result<(), Stopped>
    requires callable { F.IsAlwaysCallable to.old }
    requires full { IsFull report.now.board }
    ensures sent { HandsOut F.FnMut to.old (report_text labels.now report.now) (is_ok result) to.new }
    ensures callable { F.IsAlwaysCallable to.new }
{
    send_kind(report.firm, to)?;
    send_decimal(report.board.number(), to)?;
    send_bytes(b" ", to)?;
    send_board(&report.board, labels, to)
}

// Hands out the word that a report begins with.
fn send_kind<F: FnMut(&[u8]) -> bool>(firm: bool, to: &mut F) -> Result<(), Stopped>
    requires callable { F.IsAlwaysCallable to.old }
    ensures sent { HandsOut F.FnMut to.old (report_kind firm) (is_ok result) to.new }
    ensures callable { F.IsAlwaysCallable to.new }
{
    if firm {
        send_bytes(b"firm ", to)
    } else {
        send_bytes(b"look ", to)
    }
}

// Hands out a board's window and its rows.
fn send_board<F: FnMut(&[u8]) -> bool>(
    board: &Board,
    labels: &Labels,
    to: &mut F,
) -> Result<(), Stopped>
    requires callable { F.IsAlwaysCallable to.old }
    requires full { IsFull board.now }
    ensures sent { HandsOut F.FnMut to.old (window_text labels.now board.now) (is_ok result) to.new }
    ensures callable { F.IsAlwaysCallable to.new }
{
    let window = board.window();
    send_range_name(window, to)?;
    send_bytes(b"\n", to)?;
    for row in window.head().row()..window.tail().row() + 1 {
        send_board_row(board, labels, row, to)?;
    }
    Ok(())
}

// Hands out a row of a board, with its line's end.
fn send_board_row<F: FnMut(&[u8]) -> bool>(
    board: &Board,
    labels: &Labels,
    row: u32,
    to: &mut F,
) -> Result<(), Stopped>
    requires callable { F.IsAlwaysCallable to.old }
    requires full { IsFull board.now }
    requires from { board.now.window.head.row ≤ row }
    requires to { row ≤ board.now.window.tail.row }
    ensures sent { HandsOut F.FnMut to.old
        (row_text (board_text labels.now board.now) board.now.window row) (is_ok result) to.new }
    ensures callable { F.IsAlwaysCallable to.new }
{
    let window = board.window();
    send_shown(shown_at(board, row, window.head().col()), labels, to)?;
    for col in window.head().col() + 1..window.tail().col() + 1 {
        send_bytes(b",", to)?;
        send_shown(shown_at(board, row, col), labels, to)?;
    }
    send_bytes(b"\n", to)
}

// What is shown of a cell of the board's window.
fn shown_at(board: &Board, row: u32, col: u32) -> Shown
    requires full { IsFull board.now }
    requires inside { IsIn (record { row = row; col = col }) board.now.window }
    ensures { result ≡ slice_index_or board.now.cells
        (place_in board.now.window (record { row = row; col = col })) (shown.Stale 0) }
{
    board.cells()[place_in(board.window(), row, col)]
}

// The place of a cell among those of a window, row by row, counted from 0.
fn place_in(window: Range, row: u32, col: u32) -> usize
    requires inside { IsIn (record { row = row; col = col }) window }
    ensures place { result ≡ place_in window (record { row = row; col = col }) }
    ensures within { result < length (cells_of window) }
{
    let width = window.tail().col() - window.head().col() + 1;
    let above = row - window.head().row();
    let before = col - window.head().col();
    above as usize * width as usize + before as usize
}

// Hands out what is shown of a cell.
fn send_shown<F: FnMut(&[u8]) -> bool>(
    shown: Shown,
    labels: &Labels,
    to: &mut F,
) -> Result<(), Stopped>
    requires callable { F.IsAlwaysCallable to.old }
    ensures sent { HandsOut F.FnMut to.old (shown_text labels.now shown) (is_ok result) to.new }
    ensures callable { F.IsAlwaysCallable to.new }
{
    match &shown {
        Shown::Value(value) => send_value(*value, labels, to),
        Shown::Stale(number) => send_number(b"~", *number, to),
        Shown::Newer(number) => send_number(b"^", *number, to),
    }
}

// Hands out a sign and a number.
fn send_number<F: FnMut(&[u8]) -> bool>(sign: &[u8], number: u64, to: &mut F) -> Result<(), Stopped>
    requires callable { F.IsAlwaysCallable to.old }
    ensures sent { HandsOut F.FnMut to.old (sign.now ++ decimal number) (is_ok result) to.new }
    ensures callable { F.IsAlwaysCallable to.new }
{
    send_bytes(sign, to)?;
    send_decimal(number, to)
}
