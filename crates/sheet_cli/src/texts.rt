// The texts that words name, through the shelf.
ghost use Rattle.std.specs.Prelude.{◌≡◌, ◌≢◌, ◌≤◌, length, IfOk};
ghost use Rattle.csv_sheet.specs.declared.refused.SheetRefused.TheVariants as refused;
ghost use Rattle.sheet_cli.specs.Answers.Answer.{refusal as refusal_answer};
ghost use Rattle.sheet_cli.specs.Lines.{refused_line, too_long_line};
ghost use Rattle.sheet_cli.specs.Replies.{HasFetched, HasSheet, HasText, answer_of};

use crate::reply::{Reply, refusal};
use csv_sheet::{SheetRefused, load_in_threads};
use sheet_io::{Fetch, Shelf};
use sheet_model::Sheet;
use sheet_refs::Memory;
use std::alloc::Global;
use std::thread::Threads;

/// The longest text that is read, of a sheet or of a script, in bytes.
pub(crate) const MAX_TEXT: usize = 16_777_216;

/// What a fetch has brought.
#[derive(Drop)]
pub(crate) enum Fetched {
    /// The text.
    Text(Vec<u8>),
    /// The refusal which says that it wasn't read.
    Missed(Reply),
    /// The text is past the limit.
    TooLong,
}

/// The text under a name.
pub(crate) fn fetch_text<F: Shelf>(
    alloc: Global,
    name: &str,
    shelf: &mut F,
) -> Result<Fetched, Memory>
    ensures found { IfOk result (HasText (F.holds shelf.old) name.now
        (F.faults shelf.old) (F.faults shelf.new)) }
    ensures held { F.holds shelf.new ≡ F.holds shelf.old }
    ensures counted { F.faults shelf.old ≤ F.faults shelf.new }
{
    let mut text = Vec::new(alloc);
    match shelf.fetch(name, MAX_TEXT, &mut text) {
        // A shelf that doesn't tell its texts may give more than it was asked for.
        Ok(()) if text.len() > MAX_TEXT => Ok(Fetched::TooLong),
        Ok(()) => Ok(Fetched::Text(text)),
        Err(Fetch::Failed) => Ok(Fetched::Missed(Reply::Refusal {
            status: 5,
            line: format!(in alloc; "antifreeze: {name}: read failed\n")?,
        })),
        Err(Fetch::TooLong) => Ok(Fetched::TooLong),
        Err(Fetch::Memory) => Err(Memory),
    }
}

/// The sheet under a name, or the reply that says why there is none.
pub(crate) fn fetch_sheet<R: Threads + Sync, F: Shelf>(
    rt: &R,
    alloc: Global,
    name: &str,
    shelf: &mut F,
) -> Result<Result<Sheet, Reply>, Memory>
    ensures found { IfOk result (HasFetched (F.holds shelf.old) name.now
        (F.faults shelf.old) (F.faults shelf.new)) }
    ensures held { F.holds shelf.new ≡ F.holds shelf.old }
    ensures counted { F.faults shelf.old ≤ F.faults shelf.new }
{
    match fetch_text(alloc, name, shelf)? {
        Fetched::Text(text) => sheet_of(rt, alloc, &text),
        Fetched::Missed(reply) => Ok(Err(reply)),
        Fetched::TooLong => Ok(Err(too_long(alloc)?)),
    }
}

// The sheet of a text, or the reply that says why it has none.
fn sheet_of<R: Threads + Sync>(
    rt: &R,
    alloc: Global,
    text: &[u8],
) -> Result<Result<Sheet, Reply>, Memory>
    requires { length text.now ≤ 16777216 }
    ensures { IfOk result (HasSheet text.now) }
{
    match load_in_threads(rt, alloc, text) {
        Ok(sheet) => Ok(Ok(sheet)),
        Err(why) => Ok(Err(unread(alloc, why)?)),
    }
}

// The refusal of a text that is no sheet.
fn unread(alloc: Global, why: SheetRefused) -> Result<Reply, Memory>
    ensures line { IfOk result (λ reply. answer_of reply ≡ refusal_answer 3 (refused_line why)) }
    ensures known { IfOk result (λ _. why ≢ refused.Memory) }
{
    if why == SheetRefused::Memory {
        return Err(Memory);
    }
    Ok(Reply::Refusal {
        status: 3,
        line: format!(in alloc; "antifreeze: {why}\n")?,
    })
}

// The refusal of a text that is past the limit.
fn too_long(alloc: Global) -> Result<Reply, Memory>
    ensures { IfOk result (λ reply. answer_of reply ≡ refusal_answer 3 too_long_line) }
{
    refusal(alloc, 3, "antifreeze: sheet: text too long\n")
}
