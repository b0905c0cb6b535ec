ghost use Rattle.std.specs.Prelude.{◌≡◌, ◌≢◌};
ghost use Rattle.sheet_io.specs.Faults.{Rose};
ghost use Rattle.sheet_cli.specs.Lines.{write_failed_line, no_memory_line};
ghost use Rattle.sheet_cli.specs.Replies.{IsRefusedStatus};
ghost use Rattle.sheet_cli.specs.Runs.{IsStatus, HasWritten, HasBegun, IsRefused, IsUnfetched};
ghost use Rattle.sheet_cli.specs.Runs.{FillsAsAsked, LivesAsAsked, ShowsAsAsked, SumsAsAsked, TakesLine};
ghost use Rattle.sheet_cli.specs.Runs.{IsCalm, IsComplete, AcceptsAll, RefusesAll, UndoesAsAsked};
ghost use Rattle.sheet_cli.specs.Words.{NamesNoText, bytes_of};

use crate::reply::{Reply, reply_to};
use recalc_workers::Gate;
use sheet_io::{Shelf, Sink};
use std::alloc::Global;
use std::sync::Wait;
use std::thread::Threads;

/// Does what the words ask for, and writes it to `out`: `show SHEET RANGE` the values of the range; `deps` and `precs`
/// with the same words the vertical runs of the range's cells and of all that depend on them, or on which they depend;
/// `check SHEET` the number of the sheet's pairs, and the edges that stand for them; `path SHEET CELL CELL` the cells
/// of a shortest chain of references from the first cell to the second, or `none`; `fill SHEET CELL RANGE` the edit by
/// which the range gets what the cell holds, as lines of a script; `play SHEET SCRIPT` what the looks of the script
/// show, one step after the other; `undo SHEET SCRIPT NUMBER` the edit that undoes one of the script's edits; and
/// `live SHEET SCRIPT`, with the option `--workers N`, what a run of the script by threads has come to: each client
/// runs its commands in a task, and N workers recalculate in others; ahead of each command, and between a claim and its
/// put, the gate is called. `gen NUMBER`, with the same option, does this with a sheet and a script that are drawn from
/// the number, for which nothing is fetched, and writes how many edits there were and the sum of the closing sheet's
/// numbers. A text is what stands under its name on the shelf.
///
/// The result is the status of the process: 0 for done, 2 for words that are no command, or for a range or a cell that
/// isn't in the sheet, an edit that isn't undone or a range that isn't filled, 3 for a sheet's text that is refused, 4
/// for a script's, 5 for a fetch that failed, 6 for a put on `out` that failed, and 7 for want of memory. With every
/// status but 0 one line goes to `notes`, and nothing is written to `out` with any but 0 and 6: all memory is taken
/// before the first byte, and what is written goes out in pieces, so that no text is put together in memory.
pub fn run<R: Threads + Wait + Sync, F: Shelf, K: Sink, N: Sink, G: Gate + Sync>(
    rt: &R,
    alloc: Global,
    words: &[String],
    shelf: &mut F,
    out: &mut K,
    notes: &mut N,
    gate: &G,
) -> u8
    ensures status { IsStatus result }

    // What each status tells.
    ensures done { result ≡ 0
        → HasWritten (bytes_of words.now) (F.holds shelf.old)
        (K.written out.old) (K.written out.new) }
    // With `live`, one log with each client's edits once and in order; each value in a look the one-thread value after
    // as many edits as the look's number, which never falls for a client and covers its own earlier edits; and the
    // closing sheet with the one-thread values after the whole log.
    ensures lived { result ≡ 0
        → LivesAsAsked (bytes_of words.now) (F.holds shelf.old)
        (K.written out.old) (K.written out.new) }
    // With `path`, the cells of a list that leads by the sheet's pairs from the first cell to the second, than which no
    // such list has fewer cells, or `none` exactly where there is no such list.
    ensures shown { result ≡ 0
        → ShowsAsAsked (bytes_of words.now) (F.holds shelf.old)
        (K.written out.old) (K.written out.new) }
    // With `gen`, what such a run of the number's sheet and script comes to: it is the same whatever the schedule.
    ensures summed { result ≡ 0
        → SumsAsAsked (bytes_of words.now) (K.written out.old) (K.written out.new) }

    // With `fill`, the edit that gives each cell of the range but the one that is copied what that one holds, a formula
    // with its references moved.
    ensures filled { result ≡ 0
        → FillsAsAsked (bytes_of words.now) (F.holds shelf.old)
        (K.written out.old) (K.written out.new) }

    // With `undo`, an edit of the cells of the script's edit of that number, in its order, each to what it held before
    // that edit; no later edit changes one of them.
    ensures undone { result ≡ 0
        → UndoesAsAsked (bytes_of words.now) (F.holds shelf.old)
        (K.written out.old) (K.written out.new) }
    ensures refused { IsRefusedStatus result
        → IsRefused (bytes_of words.now) (F.holds shelf.old) result
        (TakesLine N.written N.faults notes.old notes.new) }
    ensures read_failed { result ≡ 5 → Rose (F.faults shelf.old) (F.faults shelf.new) }
    ensures unfetched { result ≡ 5
        → IsUnfetched (bytes_of words.now) (F.holds shelf.old)
        (TakesLine N.written N.faults notes.old notes.new) }
    ensures write_failed { result ≡ 6 → Rose (K.faults out.old) (K.faults out.new) }
    ensures cut { result ≡ 6
        → HasBegun (bytes_of words.now) (F.holds shelf.old)
        (K.written out.old) (K.written out.new) }
    ensures cut_noted { result ≡ 6
        → TakesLine N.written N.faults notes.old notes.new write_failed_line }
    ensures no_memory { result ≡ 7
        → TakesLine N.written N.faults notes.old notes.new no_memory_line }
    ensures nothing_written { result ≢ 0 → result ≢ 6 → K.written out.new ≡ K.written out.old }
    ensures nothing_noted { result ≡ 0 → N.written notes.new ≡ N.written notes.old }
    ensures nothing_fetched { NamesNoText (bytes_of words.now)
        → F.faults shelf.new ≡ F.faults shelf.old }

    // Where no fault rises, what the words and the texts that they name ask for is done.
    ensures accepts { IsCalm F.faults shelf.old shelf.new → IsCalm K.faults out.old out.new
        → AcceptsAll (bytes_of words.now) (F.holds shelf.old) result }
    ensures complete { IsCalm F.faults shelf.old shelf.new → IsCalm K.faults out.old out.new
        → IsComplete (bytes_of words.now) (F.holds shelf.old) result }
    ensures refuses { IsCalm F.faults shelf.old shelf.new
        → RefusesAll (bytes_of words.now) (F.holds shelf.old) result }
{
    match reply_to(rt, alloc, words, shelf, gate) {
        Ok(Reply::Output(text)) => match text.write(out) {
            Ok(()) => 0,
            Err(_) => {
                tell(notes, "antifreeze: write failed\n");
                6
            }
        },
        Ok(Reply::Refusal { status, line }) => {
            tell(notes, line.as_str());
            status
        }
        Err(_) => no_memory(notes),
    }
}

/// Notes the want of memory; the result is the status for it.
pub fn no_memory<N: Sink>(notes: &mut N) -> u8
    ensures status { result ≡ 7 }
    ensures noted { TakesLine N.written N.faults notes.old notes.new no_memory_line }
{
    tell(notes, "antifreeze: out of memory\n");
    7
}

// A line that the notes don't take changes nothing else.
fn tell<N: Sink>(notes: &mut N, line: &str)
    ensures { TakesLine N.written N.faults notes.old notes.new line.now }
{
    let _ = notes.put(line.as_bytes());
}
