ghost use Rattle.std.specs.Prelude.{◌≡◌, ◌<◌, ◌≤◌, map, string_bytes, IfOk};
ghost use Rattle.window_text.specs.Transcripts.{IsWhole, transcript_value};
ghost use Rattle.live_run.specs.Legal.{IsLegalTranscript};
ghost use Rattle.live_run.specs.Runs.{IsRunnable};

use crate::ran::Ran;
use crate::session::session;
use crate::split::parts_of;
use edit_script::Script;
use live_sheet::{Closed, Setup};
use recalc_workers::Gate;
use sheet_model::Sheet;
use sheet_refs::Memory;
use std::alloc::Global;
use std::marker::Brand;
use std::sync::Wait;
use std::thread::Threads;
use window_text::Transcript;

/// Equal names, in their order.
fn copy_names(alloc: Global, names: &[String]) -> Result<Vec<String>, Memory>
    ensures { IfOk result (λ copies. map string_bytes copies.items ≡ map string_bytes names.now) }
{
    let mut copies = Vec::with_capacity(alloc, names.len())?;
    for place in 0..names.len() {
        copies.push(names[place].clone()?)?;
    }
    Ok(copies)
}

/// Runs the script.
pub fn run_live<R: Threads + Wait + Sync, T: Gate + Sync>(
    rt: &R,
    alloc: Global,
    sheet: Sheet,
    script: &Script,
    workers: u32,
    gate: &T,
) -> Result<Transcript, Memory>
    requires runnable { IsRunnable sheet script.now }
    requires some { 1 ≤ workers }
    requires most { workers ≤ 64 }
    ensures legal { IfOk result (λ transcript. IsLegalTranscript sheet script.now (transcript_value transcript)) }
    ensures whole { IfOk result IsWhole }
{
    let names = copy_names(alloc, script.names())?;
    let clients = names.len() as u32;
    let parts = parts_of(alloc, clients, script.steps())?;
    let setup = Setup::new(alloc, sheet, clients, workers)?;
    let Ran { closed, reports } = session::<Brand, _, _>(rt, alloc, setup, parts, gate)?;
    let Closed { log, sheet, values } = closed;
    Ok(Transcript {
        names,
        log,
        sheet,
        values,
        reports,
    })
}
