// `live`: a run of a script over a sheet by threads.
ghost use Rattle.std.specs.Prelude.{◌∷◌, ◌≤◌, IfOk, codes};
ghost use Rattle.live_run.specs.Runs.{IsRunnable};
ghost use Rattle.sheet_cli.specs.Answers.{IsLived};
ghost use Rattle.sheet_cli.specs.Words.{IsAskedBy, bytes_of};

use crate::options::take_workers;
use crate::output::Output;
use crate::positions::two_words;
use crate::script::ScriptCommand;
use crate::words::Asked;
use edit_script::Script;
use live_run::run_live;
use recalc_workers::Gate;
use sheet_model::Sheet;
use sheet_refs::Memory;
use std::alloc::Global;
use std::sync::Wait;
use std::thread::Threads;

/// What `live` and the words after it ask for.
pub(crate) fn read_live(alloc: Global, words: &[String]) -> Result<Asked, Memory>
    ensures { IfOk result (IsAskedBy (codes "live" ∷ bytes_of words.now)) }
{
    let Some(taken) = take_workers(alloc, words)? else {
        return Ok(Asked::Nothing);
    };
    let Some((sheet, script)) = two_words(alloc, &taken.words)? else {
        return Ok(Asked::Nothing);
    };
    let sheet = String::from_str(alloc, sheet)?;
    let script = String::from_str(alloc, script)?;
    Ok(Asked::OfScript {
        command: ScriptCommand::Live {
            workers: taken.workers,
        },
        sheet,
        script,
    })
}

/// The text that `live` writes of a script over a sheet, by so many workers beside its clients.
pub(crate) fn live_output<R: Threads + Wait + Sync, G: Gate + Sync>(
    rt: &R,
    alloc: Global,
    sheet: Sheet,
    script: &Script,
    workers: u32,
    gate: &G,
) -> Result<Output, Memory>
    requires runnable { IsRunnable sheet script.now }
    requires some { 1 ≤ workers }
    requires most { workers ≤ 64 }
    ensures { IfOk result (λ text. IsLived sheet script.now text) }
{
    let transcript = run_live(rt, alloc, sheet, script, workers, gate)?;
    Output::of_run(alloc, transcript)
}
