// `fill`: the edit that fills a range of a sheet with what one of its cells holds.
ghost use Rattle.std.specs.Prelude.{◌≡◌, ◌≢◌, ◌≤◌, ◌∷◌, IfOk, MatchBool, codes};
ghost use Rattle.sheet_fill.specs.declared.refused.FillRefused.TheVariants as refused;
ghost use Rattle.sheet_cli.specs.Answers.{AnswersFill};
ghost use Rattle.sheet_cli.specs.Answers.Answer.{refusal as refusal_answer};
ghost use Rattle.sheet_cli.specs.Filled.{HasPlaces};
ghost use Rattle.sheet_cli.specs.Lines.{fill_line};
ghost use Rattle.sheet_cli.specs.Replies.{RepliesTo, answer_of};
ghost use Rattle.sheet_cli.specs.Requests.Request.{of_fill};
ghost use Rattle.sheet_cli.specs.Words.{IsAskedBy, bytes_of};

use crate::output::Output;
use crate::positions::three_words;
use crate::reply::{Reply, outside};
use crate::texts::fetch_sheet;
use crate::window::covers;
use crate::words::Asked;
use sheet_fill::{FillRefused, fill};
use sheet_io::Shelf;
use sheet_model::Sheet;
use sheet_refs::{Cell, Memory, Range, cell_of, range_of};
use std::alloc::Global;
use std::thread::Threads;

/// What `fill` and the words after it ask for.
pub(crate) fn read_fill(alloc: Global, words: &[String]) -> Result<Asked, Memory>
    ensures { IfOk result (IsAskedBy (codes "fill" ∷ bytes_of words.now)) }
{
    let Some((sheet, first, second)) = three_words(alloc, words)? else {
        return Ok(Asked::Nothing);
    };
    let Some(from) = cell_of(first.as_bytes()) else {
        return Ok(Asked::Nothing);
    };
    let Some(to) = range_of(second.as_bytes()) else {
        return Ok(Asked::Nothing);
    };
    let sheet = String::from_str(alloc, sheet)?;
    Ok(Asked::OfFill { sheet, from, to })
}

/// The reply to `fill`. The sheet is fetched and read, then the cell and the range are looked for in it, and then it is
/// looked whether there is something to fill, and not too much; the first of these that fails gives the refusal.
pub(crate) fn reply_of_fill<R: Threads + Sync, F: Shelf>(
    rt: &R,
    alloc: Global,
    name: &str,
    from: Cell,
    to: Range,
    shelf: &mut F,
) -> Result<Reply, Memory>
    ensures reply { IfOk result (RepliesTo (of_fill name.now from to)
        (F.holds shelf.old) (F.faults shelf.old) (F.faults shelf.new)) }
    ensures held { F.holds shelf.new ≡ F.holds shelf.old }
    ensures counted { F.faults shelf.old ≤ F.faults shelf.new }
{
    match fetch_sheet(rt, alloc, name, shelf)? {
        Ok(sheet) => fill_reply(alloc, sheet, from, to),
        Err(reply) => Ok(reply),
    }
}

// The reply to `fill` over a sheet.
fn fill_reply(alloc: Global, sheet: Sheet, from: Cell, to: Range) -> Result<Reply, Memory>
    ensures { IfOk result (λ reply. AnswersFill from to sheet (answer_of reply)) }
{
    if !has_places(&sheet, from, to) {
        return outside(alloc);
    }
    match fill(alloc, &sheet, from, to) {
        Ok(edit) => Ok(Reply::Output(Output::of_edit(alloc, sheet, edit)?)),
        Err(why) => Ok(not_filled(alloc, &why)?),
    }
}

// Whether the sheet has the cell and the whole range.
fn has_places(sheet: &Sheet, from: Cell, to: Range) -> bool
    ensures { MatchBool result (HasPlaces from to sheet.now) (¬ HasPlaces from to sheet.now) }
{
    sheet.holds(from) && covers(sheet, to)
}

// The refusal of a range that isn't filled.
fn not_filled(alloc: Global, why: &FillRefused) -> Result<Reply, Memory>
    ensures line { IfOk result (λ reply.
        answer_of reply ≡ refusal_answer 2 (fill_line why.now)) }
    ensures known { IfOk result (λ _. why.now ≢ refused.Memory) }
{
    let line = match why {
        FillRefused::Nothing => String::from_str(alloc, "antifreeze: nothing to fill\n")?,
        FillRefused::TooMany { .. } => {
            String::from_str(alloc, "antifreeze: fill of too many cells\n")?
        }
        FillRefused::Memory => return Err(Memory),
    };
    Ok(Reply::Refusal { status: 2, line })
}
