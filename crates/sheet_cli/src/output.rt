// The text that a command writes, in parts that are printed piece by piece.
ghost use Rattle.std.specs.Prelude.{◌≡◌, ◌≤◌, ◌++◌, [], length, All, IfOk, OnErr};
ghost use Rattle.live_gen.specs.Sums.{sheet_sum};
ghost use Rattle.sheet_io.specs.Faults.{Rose};
ghost use Rattle.sheet_io.specs.Sink.{Puts};
ghost use Rattle.sink_buffer.specs.Buffers.{Passes};
ghost use Rattle.taco_graph.specs.Pairs.{HaveFewPairs, pairs_of};
ghost use Rattle.text_pieces.specs.Pieces.{HandsOut};
ghost use Rattle.window_text.specs.Changes.{batch_text};
ghost use Rattle.window_text.specs.Reports.{play_text};
ghost use Rattle.sheet_model.specs.Boards.{IsFull};
ghost use Rattle.window_text.specs.Texts.{check_text, generated_text, runs_text, show_text};
ghost use Rattle.sheet_model.specs.Sheets.{IsWithinSheet};
ghost use Rattle.window_text.specs.Transcripts.{IsWhole, live_text, transcript_value};
ghost use Rattle.sheet_cli.specs.Graphs.{cells_text, none_text};
ghost use Rattle.sheet_cli.specs.Outputs.{CanBePrinted, parts_text};

use crate::cells::send_cells;
use edge_patterns::Edge;
use edit_log::Book;
use live_gen::sum_of_numbers;
use sheet_io::{Failed, Sink};
use sheet_model::{Edit, Report, Sheet, range_values};
use sheet_refs::{Cell, Memory, Range};
use sink_buffer::SinkBuffer;
use std::alloc::Global;
use std::marker::Model;
use std::mem;
use taco_graph::{SheetGraph, pair_count};
use text_pieces::send;
use window_text::{Printer, Transcript};

/// What a text is printed of.
#[derive(Drop)]
pub(crate) enum Parts {
    /// A range of a sheet, and the codes of its cells, at their places among all of the sheet's.
    Window {
        sheet: Sheet,
        range: Range,
        values: Vec<u64>,
    },
    /// A list of ranges.
    Runs(Vec<Range>),
    /// A list of edges, and the number of their pairs.
    Edges {
        pairs: u64,
        edges: Vec<Edge>,
    },
    /// The cells of a chain of references.
    Chain(Vec<Cell>),
    /// That there is no chain.
    NoChain,
    /// The reports of a script, and the book that has the sheet with its labels.
    Reports {
        book: Book<SheetGraph>,
        reports: Vec<Report>,
    },
    /// What a live run has come to.
    Run(Transcript),
    /// The number of a generated run, how many edits it has, and the sum of its values.
    Summary {
        number: u32,
        edits: u64,
        sum: i128,
    },
    /// An edit, and the sheet that has the labels.
    Batch {
        sheet: Sheet,
        edit: Edit,
    },
}

/// A text that is to be written, with all that its writing takes: what is printed, and the buffer on its way out.
///
/// Contracts see it as the text.
#[derive(Drop)]
pub(crate) struct Output {
    parts: Parts,
    buffer: SinkBuffer,
}

impl Model for Output {
    ghost use Rattle.std.specs.Prelude.{ℕ, List};
    ghost use Rattle.sheet_cli.specs.Outputs.{IsReady, parts_text};

    ghost Value = { List ℕ };

    ghost view = { λ o. parts_text o.parts };

    ghost invariant = { λ o. IsReady o.parts o.buffer };
}

impl Output {
    // The text of these parts. The buffer's memory is taken here.
    fn of_parts(alloc: Global, parts: Parts) -> Result<Output, Memory>
        requires { CanBePrinted parts }
        ensures { IfOk result (λ text. text ≡ parts_text parts) }
    {
        match SinkBuffer::new(alloc) {
            Ok(buffer) => Ok(Output { parts, buffer }),
            Err(_) => Err(Memory),
        }
    }

    /// The text of the values of a range of a sheet. The formulas of the range are evaluated, and those to which they
    /// lead.
    pub(crate) fn of_window(alloc: Global, sheet: Sheet, range: Range) -> Result<Output, Memory>
        requires { IsWithinSheet range sheet }
        ensures { IfOk result (λ text. text ≡ show_text sheet range) }
    {
        let values = range_values(alloc, &sheet, range)?;
        Output::of_parts(
            alloc,
            Parts::Window {
                sheet,
                range,
                values,
            },
        )
    }

    /// The text of a list of ranges.
    pub(crate) fn of_runs(alloc: Global, runs: Vec<Range>) -> Result<Output, Memory>
        ensures { IfOk result (λ text. text ≡ runs_text runs.items) }
    {
        Output::of_parts(alloc, Parts::Runs(runs))
    }

    /// The text of a list of edges.
    pub(crate) fn of_edges(alloc: Global, edges: Vec<Edge>) -> Result<Output, Memory>
        requires { HaveFewPairs edges.items }
        ensures { IfOk result (λ text.
            text ≡ check_text (length (pairs_of edges.items)) edges.items) }
    {
        let pairs = pair_count(&edges);
        Output::of_parts(alloc, Parts::Edges { pairs, edges })
    }

    /// The text of the cells of a chain.
    pub(crate) fn of_chain(alloc: Global, cells: Vec<Cell>) -> Result<Output, Memory>
        ensures { IfOk result (λ text. text ≡ cells_text cells.items) }
    {
        Output::of_parts(alloc, Parts::Chain(cells))
    }

    /// The text which says that there is no chain.
    pub(crate) fn of_no_chain(alloc: Global) -> Result<Output, Memory>
        ensures { IfOk result (λ text. text ≡ none_text) }
    {
        Output::of_parts(alloc, Parts::NoChain)
    }

    /// The text of reports of a script, beside the labels of a book's sheet.
    pub(crate) fn of_reports(
        alloc: Global,
        book: Book<SheetGraph>,
        reports: Vec<Report>,
    ) -> Result<Output, Memory>
        requires { All (λ report. IsFull report.board) reports.items }
        ensures { IfOk result (λ text. text ≡ play_text book.sheet.labels reports.items) }
    {
        Output::of_parts(alloc, Parts::Reports { book, reports })
    }

    /// The text of what a live run has come to.
    pub(crate) fn of_run(alloc: Global, transcript: Transcript) -> Result<Output, Memory>
        requires { IsWhole transcript }
        ensures { IfOk result (λ text. text ≡ live_text (transcript_value transcript)) }
    {
        Output::of_parts(alloc, Parts::Run(transcript))
    }

    /// The text of what the run of a number has come to: how many edits it has, and the sum of the numbers among its
    /// closing values.
    pub(crate) fn of_summary(
        alloc: Global,
        number: u32,
        transcript: &Transcript,
    ) -> Result<Output, Memory>
        requires { IsWhole transcript.now }
        ensures { IfOk result (λ text. text
            ≡ generated_text number (length transcript.now.log.items) (sheet_sum transcript.now.sheet)) }
    {
        let edits = transcript.log.len() as u64;
        let sum = sum_of_numbers(&transcript.sheet, &transcript.values);
        Output::of_parts(alloc, Parts::Summary { number, edits, sum })
    }

    /// The text of an edit as lines of a script, beside the labels of a sheet.
    pub(crate) fn of_edit(alloc: Global, sheet: Sheet, edit: Edit) -> Result<Output, Memory>
        ensures { IfOk result (λ text. text ≡ batch_text sheet.labels edit) }
    {
        Output::of_parts(alloc, Parts::Batch { sheet, edit })
    }

    /// Writes the text to a sink, in pieces of 65,536 bytes and a last one of at most that many. It takes no memory,
    /// and gives none back: a command has nothing left to do then, and to take a large sheet apart cell by cell would
    /// be a good part of its time.
    pub(crate) fn write<K: Sink>(self, out: &mut K) -> Result<(), Failed>
        ensures taken { Puts (K.written out.old) (K.written out.new) self result }
        ensures counted { K.faults out.old ≤ K.faults out.new }
        ensures cause { OnErr result (Rose (K.faults out.old) (K.faults out.new)) }
    {
        let Output { parts, buffer } = self;
        let written = write_parts(&parts, buffer, out);
        mem::forget(parts);
        written
    }
}

// Writes the text of these parts to a sink, by way of a buffer in which nothing waits.
fn write_parts<K: Sink>(parts: &Parts, buffer: SinkBuffer, out: &mut K) -> Result<(), Failed>
    requires printable { CanBePrinted parts.now }
    requires empty { buffer ≡ [] }
    ensures taken { Puts (K.written out.old) (K.written out.new) (parts_text parts.now) result }
    ensures counted { K.faults out.old ≤ K.faults out.new }
    ensures cause { OnErr result (Rose (K.faults out.old) (K.faults out.new)) }
{
    let mut buffer = buffer;
    if !pass_parts(parts, &mut buffer, out) {
        return Err(Failed);
    }
    buffer.finish(out)
}

// Has the text of these parts pass a buffer on its way to a sink; false where a put fails.
fn pass_parts<K: Sink>(parts: &Parts, buffer: &mut SinkBuffer, out: &mut K) -> bool
    requires { CanBePrinted parts.now }
    ensures { Passes (K.written out.old) (K.written out.new)
        (K.faults out.old) (K.faults out.new)
        (buffer.old ++ parts_text parts.now) buffer.new result }
{
    let mut take = |piece: &[u8]| buffer.take(piece, out);
    send_parts(parts, &mut take)
}

// Hands out the text of these parts.
fn send_parts<F: FnMut(&[u8]) -> bool>(parts: &Parts, to: &mut F) -> bool
    requires callable { F.IsAlwaysCallable to.old }
    requires printable { CanBePrinted parts.now }
    ensures sent { HandsOut F.FnMut to.old (parts_text parts.now) result to.new }
{
    match parts {
        Parts::Window {
            sheet,
            range,
            values,
        } => Printer::show(sheet, *range, values, to),
        Parts::Runs(runs) => Printer::runs(runs, to),
        Parts::Edges { pairs, edges } => Printer::check(*pairs, edges, to),
        Parts::Chain(cells) => send_cells(cells, to),
        Parts::NoChain => send(b"none\n", to),
        Parts::Reports { book, reports } => Printer::play(book.sheet(), reports, to),
        Parts::Run(transcript) => Printer::live(transcript, to),
        Parts::Summary { number, edits, sum } => Printer::generated(*number, *edits, *sum, to),
        Parts::Batch { sheet, edit } => Printer::batch(sheet, edit, to),
    }
}
