// What is printed of a live run: its log, its clients with their reports, and its closing sheet.
ghost use Rattle.std.specs.Prelude.{◌≡◌, ◌<◌, ◌∷◌, ◌++◌, length, map, string_bytes, All, is_ok};
ghost use Rattle.std.specs.Fmt.{decimal};
ghost use Rattle.text_pieces.specs.Pieces.{HandsOut};
ghost use Rattle.sheet_model.specs.Values.{AreValues};
ghost use Rattle.sheet_model.specs.Boards.{IsFull};
ghost use Rattle.window_text.specs.Transcripts.{client_text, clients_text, closing_rows, closing_text};
ghost use Rattle.window_text.specs.Transcripts.{edit_head, edit_text, entries_text, IsWhole, live_text};
ghost use Rattle.window_text.specs.Transcripts.{transcript_value};

use crate::changes::send_changes;
use crate::edges::send_count;
use crate::pieces::{Stopped, send_bytes, send_decimal};
use crate::reports::send_reports;
use crate::transcript::Transcript;
use crate::windows::{send_sheet_head, send_window};
use sheet_model::{Edit, Entry, Labels, Report, Sheet};
use sheet_refs::{Cell, Range};

/// Hands out a live run.
pub(crate) fn send_live<F: FnMut(&[u8]) -> bool>(
    transcript: &Transcript,
    to: &mut F,
) -> Result<(), Stopped>
    requires callable { F.IsAlwaysCallable to.old }
    requires whole { IsWhole transcript.now }
    ensures sent { HandsOut F.FnMut to.old
        (live_text (transcript_value transcript.now)) (is_ok result) to.new }
{
    let log: &[Entry] = &transcript.log;
    let labels = transcript.sheet.labels();
    send_count(b"log", log.len() as u64, to)?;
    send_entries(&transcript.names, labels, log, to)?;
    send_clients(&transcript.names, labels, &transcript.reports, to)?;
    send_closing(log.len() as u64, &transcript.sheet, &transcript.values, to)
}

// Hands out the entries of a log, each with its number, its client's name and its edit.
fn send_entries<F: FnMut(&[u8]) -> bool>(
    names: &[String],
    labels: &Labels,
    log: &[Entry],
    to: &mut F,
) -> Result<(), Stopped>
    requires callable { F.IsAlwaysCallable to.old }
    requires clients { All (λ entry. entry.client < length names.now) log.now }
    ensures sent { HandsOut F.FnMut to.old
        (entries_text (map string_bytes names.now) labels.now 1 log.now) (is_ok result) to.new }
    ensures callable { F.IsAlwaysCallable to.new }
{
    for place in 0..log.len() {
        let entry = &log[place];
        let name = &names[entry.client as usize];
        send_entry(place as u64 + 1, name, labels, &entry.edit, to)?;
    }
    Ok(())
}

// Hands out an entry.
fn send_entry<F: FnMut(&[u8]) -> bool>(
    number: u64,
    name: &str,
    labels: &Labels,
    edit: &Edit,
    to: &mut F,
) -> Result<(), Stopped>
    requires callable { F.IsAlwaysCallable to.old }
    ensures sent { HandsOut F.FnMut to.old
        (decimal number ++ (32 ∷ (name.now ++ (32 ∷ edit_text labels.now edit.now)))) (is_ok result) to.new }
    ensures callable { F.IsAlwaysCallable to.new }
{
    send_decimal(number, to)?;
    send_bytes(b" ", to)?;
    send_name(name, to)?;
    send_bytes(b" ", to)?;
    send_edit(edit, labels, to)
}

// Hands out a client's name.
fn send_name<F: FnMut(&[u8]) -> bool>(name: &str, to: &mut F) -> Result<(), Stopped>
    requires callable { F.IsAlwaysCallable to.old }
    ensures sent { HandsOut F.FnMut to.old name.now (is_ok result) to.new }
    ensures callable { F.IsAlwaysCallable to.new }
{
    send_bytes(name.as_bytes(), to)
}

// Hands out an edit as a log has it: its one change, or how many it has and each of them.
fn send_edit<F: FnMut(&[u8]) -> bool>(
    edit: &Edit,
    labels: &Labels,
    to: &mut F,
) -> Result<(), Stopped>
    requires callable { F.IsAlwaysCallable to.old }
    ensures sent { HandsOut F.FnMut to.old (edit_text labels.now edit.now) (is_ok result) to.new }
    ensures callable { F.IsAlwaysCallable to.new }
{
    let changes = edit.changes();
    send_edit_head(changes.len(), to)?;
    send_changes(changes, labels, to)
}

// Hands out how many changes follow, where there are several.
fn send_edit_head<F: FnMut(&[u8]) -> bool>(changes: usize, to: &mut F) -> Result<(), Stopped>
    requires callable { F.IsAlwaysCallable to.old }
    ensures sent { HandsOut F.FnMut to.old (edit_head changes) (is_ok result) to.new }
    ensures callable { F.IsAlwaysCallable to.new }
{
    if changes <= 1 {
        return Ok(());
    }
    send_bytes(b"batch ", to)?;
    send_decimal(changes as u64, to)?;
    send_bytes(b"\n", to)
}

// Hands out the clients, each with its reports.
fn send_clients<F: FnMut(&[u8]) -> bool>(
    names: &[String],
    labels: &Labels,
    reports: &[Vec<Report>],
    to: &mut F,
) -> Result<(), Stopped>
    requires callable { F.IsAlwaysCallable to.old }
    requires lists { length reports.now ≡ length names.now }
    requires full { All (λ shown. All (λ report. IsFull report.board) shown.items) reports.now }
    ensures sent { HandsOut F.FnMut to.old (clients_text labels.now (map string_bytes names.now)
        (map (λ shown. shown.items) reports.now)) (is_ok result) to.new }
    ensures callable { F.IsAlwaysCallable to.new }
{
    for place in 0..names.len() {
        send_client(&names[place], labels, &reports[place], to)?;
    }
    Ok(())
}

// Hands out a client with its reports.
fn send_client<F: FnMut(&[u8]) -> bool>(
    name: &str,
    labels: &Labels,
    reports: &[Report],
    to: &mut F,
) -> Result<(), Stopped>
    requires callable { F.IsAlwaysCallable to.old }
    requires full { All (λ report. IsFull report.board) reports.now }
    ensures sent { HandsOut F.FnMut to.old (client_text labels.now name.now reports.now) (is_ok result) to.new }
    ensures callable { F.IsAlwaysCallable to.new }
{
    send_bytes(b"client ", to)?;
    send_name(name, to)?;
    send_bytes(b"\n", to)?;
    send_reports(reports, labels, to)
}

// Hands out the closing sheet after so many entries.
fn send_closing<F: FnMut(&[u8]) -> bool>(
    number: u64,
    sheet: &Sheet,
    values: &[u64],
    to: &mut F,
) -> Result<(), Stopped>
    requires callable { F.IsAlwaysCallable to.old }
    requires values { AreValues sheet.now values.now }
    ensures sent { HandsOut F.FnMut to.old (closing_text number sheet.now) (is_ok result) to.new }
{
    send_sheet_head(number, to)?;
    send_closing_rows(sheet, values, to)
}

// Hands out the range of all cells of a sheet and its rows; nothing but a dash where there is no cell.
fn send_closing_rows<F: FnMut(&[u8]) -> bool>(
    sheet: &Sheet,
    values: &[u64],
    to: &mut F,
) -> Result<(), Stopped>
    requires callable { F.IsAlwaysCallable to.old }
    requires values { AreValues sheet.now values.now }
    ensures sent { HandsOut F.FnMut to.old (closing_rows sheet.now) (is_ok result) to.new }
{
    let sizes = sheet.sizes();
    if sizes.rows == 0 {
        return send_bytes(b"-\n", to);
    }
    let first = Cell::new(1, 1).unwrap();
    let last = Cell::new(sizes.rows, sizes.cols).unwrap();
    send_window(sheet, Range::of(first, last), values, to)
}
