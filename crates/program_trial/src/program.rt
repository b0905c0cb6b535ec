// The program's one call: what no clause says, that it succeeds where memory is ample, and that the statuses and lines
// are those meant.
mod scripts;

use crate::lines::{Ended, FREE, Limits, run_line, shelf_of, status_of};
use sheet_io::{Fetch, Shelf};
use std::alloc::Global;
use std::fmt::Write;
use std::sync::Wait;
use std::test::Fail;
use std::thread::Threads;

const USAGE: &str = "antifreeze: usage: antifreeze show|deps|precs SHEET RANGE; check SHEET; \
    play|live SHEET SCRIPT; gen NUMBER; fill SHEET CELL RANGE; undo SHEET SCRIPT NUMBER; path SHEET CELL CELL; \
    --workers N with live, gen\n";

const WORKED: &str = "1,=A1+1\n2,=A2+B1\n";

const SHOWN: &str = "sheet 0 A1:B2\n1,2\n2,4\n";

const EDGES: &str = "pairs 3\nedges 2\nB1:B2 A1:A2 RR\nB2:B2 B1:B1 Single\n";

const MISSED: &str = "antifreeze: s: read failed\n";

const UNWRITTEN: &str = "antifreeze: write failed\n";

const OUTSIDE: &str = "antifreeze: range outside the sheet\n";

// Runs a line over a shelf with one text, under the name `s`.
fn run_with<R: Threads + Wait + Sync>(
    rt: &R,
    alloc: Global,
    sheet: &[u8],
    line: &str,
    limits: Limits,
) -> Result<Ended, Fail> {
    let mut shelf = shelf_of(alloc, &[("s", sheet)], limits.fetch)?;
    run_line(rt, alloc, line, &mut shelf, limits)
}

// Runs each line over its sheet, and gives those that end otherwise than with their status, their output and their
// notes.
fn unlike<R: Threads + Wait + Sync>(
    rt: &R,
    alloc: Global,
    table: &[(&str, &str, u8, &str, &str)],
) -> Result<String, Fail> {
    let mut others = String::new(alloc);
    for (sheet, line, status, out, notes) in table {
        let ended = run_with(rt, alloc, sheet.as_bytes(), line, FREE)?;
        if !ended.is_so(*status, out.as_bytes(), notes) {
            write!(others, "{line} over {sheet} ends by {}, ", ended.status)?;
        }
    }
    Ok(others)
}

#[test]
fn a_run_ends_by_its_words_and_its_sheet(rt: HostRuntime) -> Result<(), Fail> {
    let others = unlike(
        &rt,
        rt.alloc(),
        &[
            (WORKED, "show s A1:B2", 0, SHOWN, ""),
            (
                "=B1+C1,=A1+2,4",
                "show s A1:C1",
                0,
                "sheet 0 A1:C1\n#CIRC!,#CIRC!,4\n",
                "",
            ),
            (
                "9007199254740991,=A1+1,-1,=A1+C1",
                "show s A1:D1",
                0,
                "sheet 0 A1:D1\n9007199254740991,#NUM!,-1,9007199254740990\n",
                "",
            ),
            ("1,\"x\"", "show s A1:A1", 0, "sheet 0 A1:A1\n1\n", ""),
            (
                WORKED,
                "show t A1:B2",
                5,
                "",
                "antifreeze: t: read failed\n",
            ),
            ("", "show s A1:A1", 2, "", OUTSIDE),
            (WORKED, "deps s A1", 0, "A1:A1\nB1:B2\n", ""),
            (WORKED, "precs s B2", 0, "A1:A2\nB1:B2\n", ""),
            (WORKED, "check s", 0, EDGES, ""),
            (WORKED, "path s A1 B2", 0, "A1\nB1\nB2\n", ""),
            (WORKED, "path s A1 C9", 2, "", OUTSIDE),
            (WORKED, "", 2, "", USAGE),
            (WORKED, "show s", 2, "", USAGE),
            (WORKED, "help s A1:B2", 2, "", USAGE),
            (WORKED, "show s A1:B2 --workers=2", 2, "", USAGE),
        ],
    )?;
    assert_eq!(rt; others.as_str(), "");
    Ok(())
}

const FETCH_FAILS: Limits = Limits { fetch: 1, ..FREE };

const PUT_FAILS: Limits = Limits { put: 1, ..FREE };

const NOTE_FAILS: Limits = Limits { note: 1, ..FREE };

#[test]
fn a_run_ends_by_its_first_failing_call(rt: HostRuntime) -> Result<(), Fail> {
    for &(line, limits, status, notes) in &[
        ("show s A1:B2", FETCH_FAILS, 5, MISSED),
        ("show s A1:B2", PUT_FAILS, 6, UNWRITTEN),
        // The words are read before the sheet is fetched, and the sheet before the range is looked for.
        ("show s A0", FETCH_FAILS, 2, USAGE),
        ("show s A1:Z9", FETCH_FAILS, 5, MISSED),
        ("show s A1:Z9", PUT_FAILS, 2, OUTSIDE),
        // A note that isn't taken changes no status.
        ("show s A0", NOTE_FAILS, 2, ""),
        ("show t A1:B2", NOTE_FAILS, 5, ""),
    ] {
        let ended = run_with(&rt, rt.alloc(), WORKED.as_bytes(), line, limits)?;
        let is_so = ended.is_so(status, b"", notes);
        assert_eq!(rt; (line, status, notes, is_so), (line, status, notes, true));
    }
    Ok(())
}

// The status of a run that is refused by its words over a shelf whose first fetch is to fail, and what two fetches
// answer after it.
fn fetches_after<R: Threads + Wait + Sync>(
    rt: &R,
    alloc: Global,
) -> Result<(u8, Result<(), Fetch>, Result<(), Fetch>), Fail> {
    let mut shelf = shelf_of(alloc, &[("s", WORKED.as_bytes())], 1)?;
    let status = status_of(rt, alloc, "show s A0", &mut shelf)?;
    let mut text = Vec::new(alloc);
    let first = shelf.fetch("s", 100, &mut text);
    let second = shelf.fetch("s", 100, &mut text);
    Ok((status, first, second))
}

#[test]
fn refused_words_fetch_nothing(rt: HostRuntime) -> Result<(), Fail> {
    let told = fetches_after(&rt, rt.alloc())?;
    // The call that is to fail is the first one, and it is still to come.
    assert_eq!(rt; told, (2, Err(Fetch::Failed), Ok(())));
    Ok(())
}
