use crate::faults::commands::{Command, script, sheet};
use crate::lines::{Ended, Limits, run_line, shelf_of};
use std::alloc::Global;
use std::sync::Wait;
use std::test::Fail;
use std::thread::Threads;

/// The line and the texts of a run.
#[derive(Drop)]
pub(crate) struct Input {
    line: &'static str,
    sheet: String,
    script: String,
}

/// Nothing fails, and there is room for the longest of the outputs.
pub(crate) const CALM: Limits = Limits {
    fetch: 0,
    put: 0,
    note: 0,
    taken: 0,
    room: 200_000,
};

/// What a command runs on.
pub(crate) fn input_of(alloc: Global, command: &Command) -> Result<Input, Fail> {
    Ok(Input {
        line: command.line,
        sheet: sheet(alloc)?,
        script: script(alloc)?,
    })
}

/// Runs a command, within these limits.
pub(crate) fn run_with<R: Threads + Wait + Sync>(
    rt: &R,
    alloc: Global,
    input: &Input,
    limits: Limits,
) -> Result<Ended, Fail> {
    let texts = [
        ("s", input.sheet.as_bytes()),
        ("t", input.script.as_bytes()),
    ];
    let mut shelf = shelf_of(alloc, &texts, limits.fetch)?;
    run_line(rt, alloc, input.line, &mut shelf, limits)
}
