ghost use Rattle.std.specs.Prelude.{All};
ghost use Rattle.sheet_model.specs.Values.{HaveCodes};
ghost use Rattle.text_pieces.specs.Pieces.{HandsOut};
ghost use Rattle.window_text.specs.Changes.{batch_text};
ghost use Rattle.window_text.specs.Reports.{play_text};
ghost use Rattle.sheet_model.specs.Boards.{IsFull};
ghost use Rattle.window_text.specs.Texts.{check_text, generated_text, runs_text, show_text};
ghost use Rattle.sheet_model.specs.Sheets.{IsWithinSheet};
ghost use Rattle.window_text.specs.Transcripts.{IsWhole, live_text, transcript_value};

use crate::changes::send_batch;
use crate::edges::{send_check, send_runs};
use crate::generated::send_generated;
use crate::live::send_live;
use crate::reports::send_reports;
use crate::transcript::Transcript;
use crate::windows::send_show;
use edge_patterns::Edge;
use sheet_model::{Edit, Report, Sheet};
use sheet_refs::Range;

/// Hands out the texts that the commands print, piece by piece, to a function that answers whether it takes
/// more. After the first false nothing more is handed out, and the answer is false; else it is true. No call
/// takes memory.
pub struct Printer;

impl Printer {
    /// What `show` prints of a range of a sheet: a line `sheet 0 RANGE`, and a line for each row, with its
    /// values between commas. The values are codes, each at the place of its cell in the sheet, row by row; only those
    /// of the range's cells are read. It takes time in proportion to the cells of the range and to the texts of their
    /// labels.
    pub fn show<F: FnMut(&[u8]) -> bool>(
        sheet: &Sheet,
        range: Range,
        values: &[u64],
        to: &mut F,
    ) -> bool
        requires callable { F.IsAlwaysCallable to.old }
        requires values { HaveCodes sheet.now values.now range }
        requires within { IsWithinSheet range sheet.now }
        ensures sent { HandsOut F.FnMut to.old (show_text sheet.now range) result to.new }
    {
        send_show(sheet, range, values, to).is_ok()
    }

    /// What `deps` and `precs` print of a list of ranges: a line for each, with its corners joined by a
    /// colon. It takes time in proportion to the ranges.
    pub fn runs<F: FnMut(&[u8]) -> bool>(runs: &[Range], to: &mut F) -> bool
        requires callable { F.IsAlwaysCallable to.old }
        ensures sent { HandsOut F.FnMut to.old (runs_text runs.now) result to.new }
    {
        send_runs(runs, to).is_ok()
    }

    /// What `check` prints of a number of pairs and a list of edges: a line `pairs P`, a line `edges E` with
    /// the number of edges, and for each edge a line `DEP PREC PATTERN` with its run, the rectangle of its
    /// ranges and its pattern, which is `Single`, `RR`, `RF`, `FR`, `FF` or `Chain`. It takes time in
    /// proportion to the edges.
    pub fn check<F: FnMut(&[u8]) -> bool>(pairs: u64, edges: &[Edge], to: &mut F) -> bool
        requires callable { F.IsAlwaysCallable to.old }
        ensures sent { HandsOut F.FnMut to.old (check_text pairs edges.now) result to.new }
    {
        send_check(pairs, edges, to).is_ok()
    }

    /// What `play` prints of its reports, in order: for each a line `look NUMBER RANGE` or `firm NUMBER RANGE`, and
    /// a line for each row, with what is shown of its cells between commas. The table of labels is that of the
    /// sheet. It takes time in proportion to the cells of the windows and to the texts of their labels.
    pub fn play<F: FnMut(&[u8]) -> bool>(sheet: &Sheet, reports: &[Report], to: &mut F) -> bool
        requires callable { F.IsAlwaysCallable to.old }
        requires full { All (λ report. IsFull report.board) reports.now }
        ensures sent { HandsOut F.FnMut to.old
            (play_text sheet.now.labels reports.now) result to.new }
    {
        send_reports(reports, sheet.labels(), to).is_ok()
    }

    /// What an edit is as lines of a script: `batch`, a line `set CELL CONTENT` or `clear CELL` for each change, in
    /// order, and `end`. A value is printed as in windows, a formula in its plain text; the table of labels is that of
    /// the sheet. It takes time in proportion to the text, and n log n for a formula of n nodes.
    pub fn batch<F: FnMut(&[u8]) -> bool>(sheet: &Sheet, edit: &Edit, to: &mut F) -> bool
        requires callable { F.IsAlwaysCallable to.old }
        ensures sent { HandsOut F.FnMut to.old (batch_text sheet.now.labels edit.now) result to.new }
    {
        send_batch(sheet, edit, to).is_ok()
    }

    /// What `live` prints of a run: a line `log N` with the number of entries; for each entry its number, its
    /// client's name and its edit, which is `set CELL CONTENT` or `clear CELL`, or `batch M` and the M lines of its
    /// changes; for each client a line `client NAME` and its reports, as `play` prints them; and a line `sheet N
    /// RANGE` with all rows of the closing sheet, or `sheet N -` where it has no cell. It takes time in proportion to
    /// the entries, the cells of the windows and of the sheet, and the texts of their contents.
    pub fn live<F: FnMut(&[u8]) -> bool>(transcript: &Transcript, to: &mut F) -> bool
        requires callable { F.IsAlwaysCallable to.old }
        requires whole { IsWhole transcript.now }
        ensures sent { HandsOut F.FnMut to.old
            (live_text (transcript_value transcript.now)) result to.new }
    {
        send_live(transcript, to).is_ok()
    }

    /// What `gen` prints of a generated run: a line `gen NUMBER` with the number that it is drawn from, a line `cells
    /// 7000`, a line `edits N` with the number of its edits, and a line `sum S` with the sum of the numbers among its
    /// closing values.
    pub fn generated<F: FnMut(&[u8]) -> bool>(
        number: u32,
        edits: u64,
        sum: i128,
        to: &mut F,
    ) -> bool
        requires callable { F.IsAlwaysCallable to.old }
        ensures sent { HandsOut F.FnMut to.old (generated_text number edits sum) result to.new }
    {
        send_generated(number, edits, sum, to).is_ok()
    }
}
