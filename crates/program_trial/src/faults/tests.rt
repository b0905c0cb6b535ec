use crate::faults::commands::{COMMANDS, Command};
use crate::faults::runs::{CALM, Input, input_of, run_with};
use crate::lines::{Ended, Limits};
use std::alloc::Global;
use std::sync::Wait;
use std::test::Fail;
use std::thread::Threads;

/// How many bytes a put takes at most.
const PIECE: usize = 65_536;

const UNWRITTEN: &str = "antifreeze: write failed\n";

const UNFETCHED: [&str; 2] = [
    "antifreeze: s: read failed\n",
    "antifreeze: t: read failed\n",
];

// Whether a run ended so, with the first so many bytes of the whole text as its output.
fn has_ended(end: &Ended, status: u8, whole: &[u8], bytes: usize, notes: &str) -> bool {
    let out = end.out.written();
    end.status == status
        && out.len() == bytes
        && whole.starts_with(out)
        && end.notes.written() == notes.as_bytes()
}

// The whole text of a command.
fn whole<R: Threads + Wait + Sync>(rt: &R, alloc: Global, input: &Input) -> Result<Vec<u8>, Fail> {
    let end = run_with(rt, alloc, input, CALM)?;
    if end.status != 0 || !end.notes.written().is_empty() {
        return Err(Fail::from("a run that is refused"));
    }
    Ok(end.out.written().to_vec(alloc)?)
}

// Whether a run whose put of this number, from 0, takes so many bytes and fails ends as it has to. Where there is no
// such put, it ends well.
fn ends_cut<R: Threads + Wait + Sync>(
    rt: &R,
    alloc: Global,
    input: &Input,
    whole: &[u8],
    put: u32,
    taken: u32,
) -> Result<bool, Fail> {
    let limits = Limits {
        put: put.wrapping_add(1),
        taken,
        ..CALM
    };
    let end = run_with(rt, alloc, input, limits)?;
    let before = (put as usize).wrapping_mul(PIECE);
    if before >= whole.len() {
        return Ok(has_ended(&end, 0, whole, whole.len(), ""));
    }
    let bytes = whole.len().min(before.wrapping_add(taken as usize));
    Ok(has_ended(&end, 6, whole, bytes, UNWRITTEN))
}

// Whether a command ends as it has to with each of its puts failing in turn, where nothing, one byte or all of the
// piece is taken; and with a put failing that it doesn't make.
fn puts_fail<R: Threads + Wait + Sync>(
    rt: &R,
    alloc: Global,
    input: &Input,
    whole: &[u8],
) -> Result<bool, Fail> {
    for put in 0..4 {
        for taken in [0, 1, 65_536] {
            if !ends_cut(rt, alloc, input, whole, put, taken)? {
                return Ok(false);
            }
        }
    }
    Ok(true)
}

// The same, where the whole text has as many bytes as were counted.
fn stands_failing_puts<R: Threads + Wait + Sync>(
    rt: &R,
    alloc: Global,
    command: &Command,
) -> Result<bool, Fail> {
    let input = input_of(alloc, command)?;
    let text = whole(rt, alloc, &input)?;
    Ok(text.len() == command.bytes && puts_fail(rt, alloc, &input, &text)?)
}

#[test]
fn each_put_fails_in_turn(rt: HostRuntime) -> Result<(), Fail> {
    let alloc = rt.alloc();
    for command in &COMMANDS {
        let stands = stands_failing_puts(&rt, alloc, command)?;
        assert_eq!(rt; (command.line, stands), (command.line, true));
    }
    Ok(())
}

// Whether a run whose fetch of this number, from 0, fails ends as it has to. Where there is no such fetch, it ends
// well.
fn ends_unfetched<R: Threads + Wait + Sync>(
    rt: &R,
    alloc: Global,
    input: &Input,
    whole: &[u8],
    fetch: u32,
    fetches: u32,
) -> Result<bool, Fail> {
    let limits = Limits {
        fetch: fetch.wrapping_add(1),
        ..CALM
    };
    let end = run_with(rt, alloc, input, limits)?;
    if fetch >= fetches {
        return Ok(has_ended(&end, 0, whole, whole.len(), ""));
    }
    let line = UNFETCHED.get(fetch as usize).ok_or("a third fetch")?;
    Ok(has_ended(&end, 5, whole, 0, line))
}

// Whether a command ends as it has to with each of its fetches failing in turn, and with one failing that it doesn't
// make.
fn stands_failing_fetches<R: Threads + Wait + Sync>(
    rt: &R,
    alloc: Global,
    command: &Command,
) -> Result<bool, Fail> {
    let input = input_of(alloc, command)?;
    let text = whole(rt, alloc, &input)?;
    for fetch in 0..3 {
        if !ends_unfetched(rt, alloc, &input, &text, fetch, command.fetches)? {
            return Ok(false);
        }
    }
    Ok(true)
}

#[test]
fn each_fetch_fails_in_turn(rt: HostRuntime) -> Result<(), Fail> {
    let alloc = rt.alloc();
    for command in &COMMANDS {
        let stands = stands_failing_fetches(&rt, alloc, command)?;
        assert_eq!(rt; (command.line, stands), (command.line, true));
    }
    Ok(())
}

// Whether a run of which a call and the note fail has the status of the call.
fn ends_unnoted<R: Threads + Wait + Sync>(
    rt: &R,
    alloc: Global,
    input: &Input,
    limits: Limits,
    status: u8,
    line: &str,
) -> Result<bool, Fail> {
    let end = run_with(rt, alloc, input, limits)?;
    let notes = end.notes.written();
    Ok(
        end.status == status
            && notes.len() == limits.taken as usize
            && line.as_bytes().starts_with(notes),
    )
}

// Whether a failing call's status stays where so many bytes of its note are taken.
fn stands_failing_note<R: Threads + Wait + Sync>(
    rt: &R,
    alloc: Global,
    input: &Input,
    taken: u32,
) -> Result<bool, Fail> {
    let note = Limits {
        note: 1,
        taken,
        ..CALM
    };
    let unwritten = Limits { put: 1, ..note };
    let unfetched = Limits { fetch: 1, ..note };
    Ok(
        ends_unnoted(rt, alloc, input, unwritten, 6, UNWRITTEN)?
            && ends_unnoted(rt, alloc, input, unfetched, 5, UNFETCHED[0])?,
    )
}

#[test]
fn each_note_fails(rt: HostRuntime) -> Result<(), Fail> {
    let alloc = rt.alloc();
    for command in &COMMANDS {
        let input = input_of(alloc, command)?;
        for taken in [0, 1] {
            let stands = stands_failing_note(&rt, alloc, &input, taken)?;
            assert_eq!(rt; (command.line, stands), (command.line, true));
        }
    }
    Ok(())
}
