// The commands about a script over a sheet: the two texts, and what the command writes of them.
ghost use Rattle.std.specs.Prelude.{◌≡◌, ◌≢◌, ◌≤◌, length, Err, IfOk};
ghost use Rattle.edit_script.specs.declared.refused.ScriptRefused.TheVariants as script_refused;
ghost use Rattle.edit_script.specs.Scripts.{IsScriptResult, ground_of};
ghost use Rattle.sheet_model.specs.Labels.{IsTable};
ghost use Rattle.sheet_model.specs.Sheets.{with_labels};
ghost use Rattle.sheet_cli.specs.Answers.{AnswersScript, mode_of};
ghost use Rattle.sheet_cli.specs.Answers.Answer.{refusal as refusal_answer};
ghost use Rattle.sheet_cli.specs.Lines.{long_script_line, script_line};
ghost use Rattle.sheet_cli.specs.Replies.{RepliesOfText, RepliesOverSheet, RepliesTo, answer_of};
ghost use Rattle.sheet_cli.specs.Requests.Request.{of_script};
ghost use Rattle.sheet_cli.specs.Scripts.{HasWorkers, SuitsCommand};

use crate::live::live_output;
use crate::play::play_output;
use crate::reply::{Reply, refusal};
use crate::texts::{Fetched, fetch_sheet, fetch_text};
use crate::undo::undo_reply;
use edit_script::{Mode, Script, ScriptRefused, read_script};
use recalc_workers::Gate;
use sheet_io::Shelf;
use sheet_model::Sheet;
use sheet_refs::Memory;
use std::alloc::Global;
use std::sync::Wait;
use std::thread::Threads;

/// A command about a script over a sheet.
#[derive(Clone, Copy)]
pub enum ScriptCommand {
    /// `play`: the reports of the script, by the play machine.
    Play,
    /// `live`: the log, the reports and the closing sheet of a run by threads, with so many workers, 1 to 64, beside
    /// the clients.
    Live { workers: u32 },
    /// `undo`: the edit that undoes the one of this number, which counts the script's edits from 1.
    Undo { number: u64 },
}

impl ScriptCommand {
    // For whom the script of a command is written.
    fn mode(self) -> Mode
        ensures { result ≡ mode_of self }
    {
        match self {
            ScriptCommand::Play | ScriptCommand::Undo { .. } => Mode::Play,
            ScriptCommand::Live { .. } => Mode::Live,
        }
    }
}

/// The reply to a command about a script. The sheet is fetched and read, then the script; the first of these that
/// fails gives the refusal.
pub(crate) fn reply_of_script<R: Threads + Wait + Sync, F: Shelf, G: Gate + Sync>(
    rt: &R,
    alloc: Global,
    command: ScriptCommand,
    name: &str,
    script: &str,
    shelf: &mut F,
    gate: &G,
) -> Result<Reply, Memory>
    requires workers { HasWorkers command }
    ensures reply { IfOk result (RepliesTo (of_script command name.now script.now)
        (F.holds shelf.old) (F.faults shelf.old) (F.faults shelf.new)) }
    ensures held { F.holds shelf.new ≡ F.holds shelf.old }
    ensures counted { F.faults shelf.old ≤ F.faults shelf.new }
{
    match fetch_sheet(rt, alloc, name, shelf)? {
        Ok(sheet) => reply_over_sheet(rt, alloc, command, sheet, script, shelf, gate),
        Err(reply) => Ok(reply),
    }
}

// The reply to a command over a sheet, for which the script is fetched.
fn reply_over_sheet<R: Threads + Wait + Sync, F: Shelf, G: Gate + Sync>(
    rt: &R,
    alloc: Global,
    command: ScriptCommand,
    sheet: Sheet,
    name: &str,
    shelf: &mut F,
    gate: &G,
) -> Result<Reply, Memory>
    requires workers { HasWorkers command }
    requires few { length sheet.labels ≤ 3000000000 }
    ensures reply { IfOk result (RepliesOverSheet (F.holds shelf.old) command sheet name.now
        (F.faults shelf.old) (F.faults shelf.new)) }
    ensures held { F.holds shelf.new ≡ F.holds shelf.old }
    ensures counted { F.faults shelf.old ≤ F.faults shelf.new }
{
    match fetch_text(alloc, name, shelf)? {
        Fetched::Text(text) => reply_of_text(rt, alloc, command, sheet, &text, gate),
        Fetched::Missed(reply) => Ok(reply),
        Fetched::TooLong => long_script(alloc),
    }
}

// The reply to a command over a sheet and the text of a script.
fn reply_of_text<R: Threads + Wait + Sync, G: Gate + Sync>(
    rt: &R,
    alloc: Global,
    command: ScriptCommand,
    sheet: Sheet,
    text: &[u8],
    gate: &G,
) -> Result<Reply, Memory>
    requires workers { HasWorkers command }
    requires short { length text.now ≤ 16777216 }
    requires few { length sheet.labels ≤ 3000000000 }
    ensures { IfOk result (RepliesOfText command sheet text.now) }
{
    let mut sheet = sheet;
    match script_of(alloc, command.mode(), text, &mut sheet) {
        Ok(script) => script_reply(rt, alloc, command, sheet, &script, gate),
        Err(why) => Ok(no_script(alloc, why)?),
    }
}

// The script of a text over a sheet, whose table of labels is one afterwards too.
fn script_of(
    alloc: Global,
    mode: Mode,
    text: &[u8],
    sheet: &mut Sheet,
) -> Result<Script, ScriptRefused>
    requires short { length text.now ≤ 16777216 }
    requires few { length sheet.old.labels ≤ 3000000000 }
    ensures result { result ≢ Err script_refused.Memory
        → IsScriptResult mode (ground_of sheet.old) sheet.old.labels sheet.new.labels text.now result }
    ensures kept { sheet.new ≡ with_labels sheet.old sheet.new.labels }
    ensures table { IsTable sheet.new.labels }
{
    let script = read_script(alloc, text, mode, sheet);
    // The contract of a reader says that the table is one.
    let _ = sheet.labels();
    script
}

// The reply to a command over a sheet and a script.
fn script_reply<R: Threads + Wait + Sync, G: Gate + Sync>(
    rt: &R,
    alloc: Global,
    command: ScriptCommand,
    sheet: Sheet,
    script: &Script,
    gate: &G,
) -> Result<Reply, Memory>
    requires { SuitsCommand command sheet script.now }
    ensures { IfOk result (λ reply. AnswersScript command sheet script.now (answer_of reply)) }
{
    match command {
        ScriptCommand::Play => Ok(Reply::Output(play_output(alloc, sheet, script.steps())?)),
        ScriptCommand::Live { workers } => {
            let text = live_output(rt, alloc, sheet, script, workers, gate)?;
            Ok(Reply::Output(text))
        }
        ScriptCommand::Undo { number } => undo_reply(alloc, sheet, script, number),
    }
}

// The refusal of a text that is no script.
fn no_script(alloc: Global, why: ScriptRefused) -> Result<Reply, Memory>
    ensures line { IfOk result (λ reply. answer_of reply ≡ refusal_answer 4 (script_line why)) }
    ensures known { IfOk result (λ _. why ≢ script_refused.Memory) }
{
    if why == ScriptRefused::Memory {
        return Err(Memory);
    }
    Ok(Reply::Refusal {
        status: 4,
        line: format!(in alloc; "antifreeze: {why}\n")?,
    })
}

// The refusal of a script that is past the limit.
fn long_script(alloc: Global) -> Result<Reply, Memory>
    ensures { IfOk result (λ reply. answer_of reply ≡ refusal_answer 4 long_script_line) }
{
    refusal(alloc, 4, "antifreeze: script: text too long\n")
}
