// `play` and `live`.
use super::{USAGE, WORKED};
use crate::lines::{Ended, FREE, Limits, run_line, shelf_of, texts_of};
use sheet_io::SureShelf;
use std::alloc::Global;
use std::sync::Wait;
use std::test::Fail;
use std::thread::Threads;

// How `play s t` ends over a sheet and a script.
fn play_with<R: Threads + Wait + Sync>(
    rt: &R,
    alloc: Global,
    sheet: &[u8],
    script: &[u8],
) -> Result<Ended, Fail> {
    let mut shelf = shelf_of(alloc, &[("s", sheet), ("t", script)], 0)?;
    run_line(rt, alloc, "play s t", &mut shelf, FREE)
}

#[test]
fn a_script_is_played(rt: HostRuntime) -> Result<(), Fail> {
    for &(sheet, script, status, out, notes) in &[
        (
            WORKED,
            "set A1 5\nlook A1:B2\nwork 2\nlook A1:B2\n",
            0,
            "look 1 A1:B2\n~1,~1\n2,~1\nlook 1 A1:B2\n5,6\n2,~1\n",
            "",
        ),
        (
            "1,=A1",
            "set A1 =B1\nlook A1:B1\nwork 1\nlook A1:B1\nfirm A1:B1",
            0,
            "look 1 A1:B1\n~1,~1\nlook 1 A1:B1\n#CIRC!,~1\nfirm 1 A1:B1\n#CIRC!,#CIRC!\n",
            "",
        ),
        (
            WORKED,
            "set Z99 1",
            4,
            "",
            "antifreeze: script: line 1: cell outside the sheet\n",
        ),
    ] {
        let ended = play_with(&rt, rt.alloc(), sheet.as_bytes(), script.as_bytes())?;
        assert_eq!(rt;
            (script, ended.is_so(status, out.as_bytes(), notes)),
            (script, true)
        );
    }
    Ok(())
}

const RUN_SCRIPT: &str = "client ann\nset A1 5\nset A2 =a1 * 2\nfirm A1:B2\n";

const RUN_TEXT: &str = "log 2\n1 ann set A1 5\n2 ann set A2 =A1*2\nclient ann\nfirm 2 A1:B2\n\
    5,6\n10,16\nsheet 2 A1:B2\n5,6\n10,16\n";

// How a run over a shelf that never fails ends, where the put on `out` with this number is to fail.
fn live_failing_at<R: Threads + Wait + Sync>(
    rt: &R,
    alloc: Global,
    line: &str,
    put: u32,
) -> Result<Ended, Fail> {
    let texts = [("s", WORKED.as_bytes()), ("t", RUN_SCRIPT.as_bytes())];
    let mut shelf = SureShelf::new(texts_of(alloc, &texts)?);
    let limits = Limits { put, ..FREE };
    run_line(rt, alloc, line, &mut shelf, limits)
}

// One client's firm look shows the same with however many workers.
#[test]
fn a_script_is_run_by_threads(rt: HostRuntime) -> Result<(), Fail> {
    for &(line, put, status, out, notes) in &[
        ("live s t", 0, 0, RUN_TEXT, ""),
        ("live s t --workers 1", 0, 0, RUN_TEXT, ""),
        ("live --workers=64 s t", 0, 0, RUN_TEXT, ""),
        ("live s t", 1, 6, "", "antifreeze: write failed\n"),
        ("live s t --workers 65", 0, 2, "", USAGE),
        ("live s t --workers", 0, 2, "", USAGE),
        ("live s --workers 4", 0, 2, "", USAGE),
    ] {
        let ended = live_failing_at(&rt, rt.alloc(), line, put)?;
        assert_eq!(rt;
            (line, ended.is_so(status, out.as_bytes(), notes)),
            (line, true)
        );
    }
    Ok(())
}
