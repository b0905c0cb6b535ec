ghost use Rattle.std.specs.Bool.{OnTrue};
ghost use Rattle.std.specs.Prelude.{◌≡◌};
ghost use Rattle.sheet_model.specs.Edits.{IsChangeFor, IsFor};
ghost use Rattle.sheet_undo.specs.Undoing.{AreFor};
ghost use Rattle.live_sheet.specs.Setups.{IsNamedBy};

use crate::edits::is_plain;
use crate::fields::four_cells;
use crate::stories::{Story, edit};
use crate::texts::{is_told, write_codes};
use live_sheet::{Closed, Live, Naming, Opened, Setup};
use recalc_workers::OpenGate;
use sheet_model::{Change, Entry, Sheet, all_values};
use sheet_undo::inverse;
use std::alloc::Global;
use std::marker::Brand;
use std::sync::Wait;
use std::test::Fail;
use std::thread::Threads;

// Whether a change is one of a cell of the sheet, to no label.
fn is_for(sheet: &Sheet, change: &Change) -> bool
    ensures { OnTrue result (IsChangeFor sheet.now change.now) }
{
    if !sheet.holds(change.cell) {
        return false;
    }
    if !is_plain(&change.content) {
        return false;
    }
    true
}

// Whether all changes of an edit are.
fn are_for(sheet: &Sheet, changes: &[Change]) -> bool
    ensures { OnTrue result (IsFor sheet.now changes.now) }
{
    for change in changes {
        if !is_for(sheet, change) {
            return false;
        }
    }
    true
}

// Whether all changes of all entries are.
fn all_are_for(sheet: &Sheet, log: &[Entry]) -> bool
    ensures { OnTrue result (AreFor sheet.now log.now) }
{
    for entry in log {
        if !are_for(sheet, entry.edit.changes()) {
            return false;
        }
    }
    true
}

// Undoes the entry of a number, and writes the values of the sheet.
fn undoes(
    alloc: Global,
    opening: &Sheet,
    log: &[Entry],
    number: u64,
    sheet: &mut Sheet,
    text: &mut String,
) -> Result<(), Fail> {
    if !all_are_for(opening, log) {
        return Err(Fail::from("an entry of another sheet"));
    }
    let Ok(edit) = inverse(alloc, opening, log, number) else {
        return Err(Fail::from("an entry that is not undone"));
    };
    if !are_for(sheet, edit.changes()) {
        return Err(Fail::from("an edit of another sheet"));
    }
    let _ = sheet.apply(edit);
    write_codes(text, &all_values(alloc, sheet)?)
}

// Makes two edits, closes, and undoes the second one over the closed log.
fn closes_and_undoes<N: Naming, R: Threads + Wait + Sync>(
    rt: &R,
    alloc: Global,
    setup: Setup,
    opening: &Sheet,
    first: (&str, &str),
    second: (&str, &str),
    story: &mut Story,
) -> Result<(), Fail>
    requires named { IsNamedBy N.name N.parts N.words N.queue N.opening N.clients setup }
    requires alone { N.clients ≡ 1 }
{
    let Opened {
        live,
        mut passes,
        desks,
    } = Live::<N>::open(alloc, setup)?;
    let Some(mut pass) = passes.pop() else {
        return Err(Fail::from("no pass"));
    };
    edit(rt, &live, &mut pass, first, story)?;
    edit(rt, &live, &mut pass, second, story)?;
    passes.push(pass)?;
    let Ok(closed) = live.close(rt, passes, desks, &OpenGate) else {
        return Err(Fail::from("a sheet that is not closed"));
    };
    let Closed {
        log,
        mut sheet,
        values: _,
    } = closed;
    undoes(alloc, opening, &log, 2, &mut sheet, &mut story.text)
}

// The same over a sheet, of which there is a copy.
fn edited_and_undone<R: Threads + Wait + Sync>(
    rt: &R,
    alloc: Global,
    sheet: Sheet,
    opening: &Sheet,
    story: &mut Story,
) -> Result<(), Fail> {
    let setup = Setup::new(alloc, sheet, 1, 2)?;
    let (first, second) = (("A1", "5"), ("A2", "=A1*2"));
    closes_and_undoes::<Brand, _>(rt, alloc, setup, opening, first, second, story)
}

// What is told of this over four cells.
fn told<R: Threads + Wait + Sync>(rt: &R, alloc: Global) -> Result<String, Fail> {
    let mut story = Story::of(alloc, "A1:B2")?;
    let opening = four_cells(alloc)?;
    edited_and_undone(rt, alloc, opening.copy()?, &opening, &mut story)?;
    Ok(story.into_text())
}

#[test]
fn the_last_edit_of_a_closed_sheet_is_undone(rt: HostRuntime) -> Result<(), Fail> {
    let text = told(&rt, rt.alloc())?;
    is_told(&rt, text.as_str(), " #1  #2  5 6 2 8");
    Ok(())
}
