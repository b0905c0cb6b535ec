//! The program: it makes the shelf of files and the two sinks over the standard streams, hands them with
//! its words, the runtime and a gate at which nothing happens to `run` of `sheet_cli`, and ends with the status
//! that `run` answers.
//!
//! What each status tells, what was written and what was noted, the contract of `run` says. Below stand
//! `sheet_cli`, `sheet_io`, through which all input and output goes, and `recalc_workers`, which has the gate.
#![tactic(auto)]

use recalc_workers::OpenGate;
use sheet_cli::{no_memory, run};
use sheet_io::{FileShelf, StreamSink};
use sheet_refs::Memory;
use std::process::ExitCode;
use std::{env, io};

fn main(rt: HostRuntime) -> ExitCode {
    let mut shelf = FileShelf::new(&rt);
    let mut out = StreamSink::new(rt.stdout());
    let mut notes = StreamSink::new(rt.stderr());
    let status = match command_words(&rt) {
        Ok(words) => run(
            &rt,
            rt.alloc(),
            &words,
            &mut shelf,
            &mut out,
            &mut notes,
            &OpenGate,
        ),
        Err(Memory) => no_memory(&mut notes),
    };
    ExitCode::from(status)
}

// The words after the program's name. Where one of them isn't text there are none, which is no command.
fn command_words(rt: &HostRuntime) -> Result<Vec<String>, Memory> {
    match env::args(rt) {
        Ok(args) => Ok(args.skip(1).collect(rt.alloc())?),
        Err(error) if error.kind() == io::ErrorKind::OutOfMemory => Err(Memory),
        Err(_) => Ok(Vec::new(rt.alloc())),
    }
}
