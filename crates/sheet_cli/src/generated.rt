// `gen`: a run of the sheet and the script that are drawn from a number.
ghost use Rattle.std.specs.Prelude.{◌≤◌, ◌∷◌, ℕ, IfOk, codes};
ghost use Rattle.sheet_refs.specs.Names.{Finds};
ghost use Rattle.sheet_cli.specs.Answers.{IsSummed, Texts};
ghost use Rattle.sheet_cli.specs.Replies.{RepliesTo};
ghost use Rattle.sheet_cli.specs.Requests.Request.{of_generated};
ghost use Rattle.sheet_cli.specs.Words.{IsAskedBy, IsNumber, bytes_of};

use crate::options::take_workers;
use crate::output::Output;
use crate::positions::{MAX_DIGITS, MAX_NUMBER, one_word};
use crate::reply::Reply;
use crate::words::Asked;
use live_gen::generate;
use live_run::run_live;
use recalc_workers::Gate;
use sheet_refs::{Memory, decimal_of};
use std::alloc::Global;
use std::sync::Wait;
use std::thread::Threads;

/// What `gen` and the words after it ask for.
pub(crate) fn read_generated(alloc: Global, words: &[String]) -> Result<Asked, Memory>
    ensures { IfOk result (IsAskedBy (codes "gen" ∷ bytes_of words.now)) }
{
    let Some(taken) = take_workers(alloc, words)? else {
        return Ok(Asked::Nothing);
    };
    let Some(digits) = one_word(alloc, &taken.words)? else {
        return Ok(Asked::Nothing);
    };
    let Some(number) = run_number_of(digits.as_bytes()) else {
        return Ok(Asked::Nothing);
    };
    Ok(Asked::OfGenerated {
        number,
        workers: taken.workers,
    })
}

// The number of a run that digits write.
fn run_number_of(digits: &[u8]) -> Option<u32>
    ensures { Finds result (IsNumber digits.now) }
{
    if digits.len() > MAX_DIGITS {
        return None;
    }
    let number = decimal_of(digits, MAX_NUMBER)?;
    Some(number as u32)
}

/// The reply to `gen`, for which nothing is fetched.
pub(crate) fn reply_of_generated<R: Threads + Wait + Sync, G: Gate + Sync>(
    rt: &R,
    alloc: Global,
    number: u32,
    workers: u32,
    gate: &G,
) -> Result<Reply, Memory>
    requires some { 1 ≤ workers }
    requires most { workers ≤ 64 }
    ensures { IfOk result (λ reply. (holds : Texts) (faults : ℕ)
        → RepliesTo (of_generated number workers) holds faults faults reply) }
{
    let output = generated_output(rt, alloc, number, workers, gate)?;
    Ok(Reply::Output(output))
}

// The text that `gen` writes of a number: what a run like that of `live` has come to, by so many workers beside its
// clients.
fn generated_output<R: Threads + Wait + Sync, G: Gate + Sync>(
    rt: &R,
    alloc: Global,
    number: u32,
    workers: u32,
    gate: &G,
) -> Result<Output, Memory>
    requires some { 1 ≤ workers }
    requires most { workers ≤ 64 }
    ensures { IfOk result (λ text. IsSummed number text) }
{
    let (sheet, script) = generate(alloc, number)?;
    let transcript = run_live(rt, alloc, sheet, &script, workers, gate)?;
    Output::of_summary(alloc, number, &transcript)
}
