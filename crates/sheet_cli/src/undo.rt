// `undo`: the edit that undoes one of a script's edits.
ghost use Rattle.std.specs.Prelude.{◌≡◌, ◌≢◌, ◌∷◌, IfOk, OnOk, codes};
ghost use Rattle.sheet_refs.specs.Names.{Finds};
ghost use Rattle.play_machine.specs.Playing.{AreFit};
ghost use Rattle.sheet_undo.specs.declared.refused.UndoRefused.TheVariants as refused;
ghost use Rattle.sheet_cli.specs.Answers.{AnswersUndo};
ghost use Rattle.sheet_cli.specs.Answers.Answer.{refusal as refusal_answer};
ghost use Rattle.sheet_cli.specs.Lines.{undo_line};
ghost use Rattle.sheet_cli.specs.Replies.{answer_of};
ghost use Rattle.sheet_cli.specs.Undone.{AddsEntry, entries_of};
ghost use Rattle.sheet_cli.specs.Words.{IsAskedBy, IsNumber, bytes_of};

use crate::output::Output;
use crate::positions::{MAX_DIGITS, MAX_NUMBER, three_words};
use crate::reply::Reply;
use crate::script::ScriptCommand;
use crate::words::Asked;
use edit_script::{Command, Script, Step};
use sheet_model::{Entry, Sheet};
use sheet_refs::{Memory, decimal_of};
use sheet_undo::{UndoRefused, inverse};
use std::alloc::Global;

/// What `undo` and the words after it ask for.
pub(crate) fn read_undo(alloc: Global, words: &[String]) -> Result<Asked, Memory>
    ensures { IfOk result (IsAskedBy (codes "undo" ∷ bytes_of words.now)) }
{
    let Some((sheet, script, digits)) = three_words(alloc, words)? else {
        return Ok(Asked::Nothing);
    };
    let Some(number) = number_of(digits.as_bytes()) else {
        return Ok(Asked::Nothing);
    };
    let sheet = String::from_str(alloc, sheet)?;
    let script = String::from_str(alloc, script)?;
    Ok(Asked::OfScript {
        command: ScriptCommand::Undo { number },
        sheet,
        script,
    })
}

// The number of an edit that digits write.
fn number_of(digits: &[u8]) -> Option<u64>
    ensures { Finds result (IsNumber digits.now) }
{
    if digits.len() > MAX_DIGITS {
        return None;
    }
    decimal_of(digits, MAX_NUMBER)
}

/// The reply to `undo` over a sheet and the steps of a script.
pub(crate) fn undo_reply(
    alloc: Global,
    sheet: Sheet,
    script: &Script,
    number: u64,
) -> Result<Reply, Memory>
    requires { AreFit sheet script.now.steps }
    ensures { IfOk result (λ reply. AnswersUndo number sheet script.now (answer_of reply)) }
{
    let log = log_of(alloc, script.steps())?;
    match inverse(alloc, &sheet, &log, number) {
        Ok(edit) => Ok(Reply::Output(Output::of_edit(alloc, sheet, edit)?)),
        Err(why) => Ok(not_undone(alloc, number, &why)?),
    }
}

// The refusal of an edit that isn't undone.
fn not_undone(alloc: Global, number: u64, why: &UndoRefused) -> Result<Reply, Memory>
    ensures line { IfOk result (λ reply.
        answer_of reply ≡ refusal_answer 2 (undo_line number why.now)) }
    ensures known { IfOk result (λ _. why.now ≢ refused.Memory) }
{
    let line = match why {
        UndoRefused::NoSuchEdit { .. } => format!(in alloc; "antifreeze: no edit {number}\n")?,
        UndoRefused::Overtaken { by, cell } => {
            format!(in alloc; "antifreeze: edit {number} overtaken by {by} at {cell}\n")?
        }
        UndoRefused::Memory => return Err(Memory),
    };
    Ok(Reply::Refusal { status: 2, line })
}

// The edits of steps, in their order, as a log.
fn log_of(alloc: Global, steps: &[Step]) -> Result<Vec<Entry>, Memory>
    ensures { IfOk result (λ log. log.items ≡ entries_of steps.now) }
{
    let mut log = Vec::new(alloc);
    for step in steps {
        add_entry(&mut log, step)?;
    }
    Ok(log)
}

// Adds what a step edits to a log.
fn add_entry(log: &mut Vec<Entry>, step: &Step) -> Result<(), Memory>
    ensures { OnOk result (AddsEntry step.now log.old.items log.new.items) }
{
    match &step.command {
        Command::Put(edit) => {
            let client = step.client;
            let edit = edit.copy()?;
            log.push(Entry { client, edit })?;
            Ok(())
        }
        Command::Look(_) | Command::Firm(_) | Command::Work(_) => Ok(()),
    }
}
