ghost use Rattle.std.specs.Prelude.{◌≡◌};
ghost use Rattle.live_sheet.specs.Setups.{IsNamedBy};

use crate::fields::{cell, put, range};
use crate::single::{Single, opens};
use crate::stories::{Story, edit, firm, look};
use crate::texts::is_told;
use formula_syntax::Edition;
use live_sheet::{Desk, Live, Naming, Pass, Setup};
use recalc_workers::{OpenGate, Turn};
use sheet_model::Sheet;
use sheet_refs::{Cell, Sizes};
use std::alloc::Global;
use std::fmt::Write;
use std::marker::Brand;
use std::sync::Wait;
use std::test::Fail;
use std::thread::Threads;

/// How many formulas the sheet has.
const ROWS: u32 = 70_000;

// Puts the number 1 into A1, and a formula that names it into each row of B.
fn fill(sheet: &mut Sheet) -> Result<(), Fail> {
    put(sheet, cell("A1")?, "1")?;
    for row in 1..=ROWS {
        let cell = Cell::new(row, 2).ok_or("no cell")?;
        put(sheet, cell, "=$A$1")?;
    }
    Ok(())
}

// A sheet of such a column.
fn column(alloc: Global) -> Result<Sheet, Fail> {
    let mut sheet = Sheet::blank(alloc, ROWS, 2, Edition::One)?;
    fill(&mut sheet)?;
    Ok(sheet)
}

// How many turns at a desk compute a cell, before one finds no job.
fn works_until_idle<N: Naming, R: Wait>(rt: &R, live: &Live<N>, desk: &mut Desk<N>) -> u32 {
    let mut done = 0_u32;
    for _ in 0..200_000 {
        match live.work(rt, desk, &OpenGate) {
            Turn::Done(_) => done = done.wrapping_add(1),
            Turn::Idle => return done,
            _ => {}
        }
    }
    0
}

// Works until there is no job, and writes how many turns computed a cell.
fn works<N: Naming, R: Wait>(
    rt: &R,
    live: &Live<N>,
    desk: &mut Desk<N>,
    text: &mut String,
) -> Result<(), Fail> {
    let done = works_until_idle(rt, live, desk);
    write!(text, "{done} done, ")?;
    Ok(())
}

// Edits, works until there is no job, looks, takes a firm look at the last cell, and looks at both cells again.
fn goes<N: Naming, R: Threads + Wait + Sync>(
    rt: &R,
    live: &Live<N>,
    pass: &mut Pass<N>,
    desk: &mut Desk<N>,
    sizes: Sizes,
    story: &mut Story,
) -> Result<(), Fail>
    requires { sizes ≡ N.opening.sizes }
{
    edit(rt, live, pass, ("A1", "5"), story)?;
    works(rt, live, desk, &mut story.text)?;
    look(live, pass, sizes, story)?;
    let both = story.range;
    story.range = range("B70000:B70000")?;
    firm(rt, live, pass, sizes, story)?;
    story.range = both;
    story.text.push_str(", ")?;
    look(live, pass, sizes, story)
}

// Opens a sheet for this.
fn edits_and_works<N: Naming, R: Threads + Wait + Sync>(
    rt: &R,
    alloc: Global,
    setup: Setup,
    sizes: Sizes,
    story: &mut Story,
) -> Result<(), Fail>
    requires named { IsNamedBy N.name N.parts N.words N.queue N.opening N.clients setup }
    requires alone { N.clients ≡ 1 }
    requires sizes { sizes ≡ N.opening.sizes }
{
    let Single {
        live,
        mut pass,
        mut desk,
    } = opens::<N>(alloc, setup)?;
    goes(rt, &live, &mut pass, &mut desk, sizes, story)
}

// The same over a sheet, with one client and one desk.
fn worked<R: Threads + Wait + Sync>(
    rt: &R,
    alloc: Global,
    sheet: Sheet,
    story: &mut Story,
) -> Result<(), Fail> {
    let sizes = sheet.sizes();
    let setup = Setup::new(alloc, sheet, 1, 1)?;
    edits_and_works::<Brand, _>(rt, alloc, setup, sizes, story)
}

// What is told of this, with a look at two cells.
fn told<R: Threads + Wait + Sync>(rt: &R, alloc: Global) -> Result<String, Fail> {
    let mut story = Story::of(alloc, "B65535:B65536")?;
    worked(rt, alloc, column(alloc)?, &mut story)?;
    Ok(story.into_text())
}

// An edit touches 70,001 cells, and the queue takes 65,536 jobs: those of A1 and of the first 65,535 formulas. A firm
// look computes what it shows, and no more.
#[test]
fn jobs_that_find_the_queue_full_are_dropped(rt: HostRuntime) -> Result<(), Fail> {
    let text = told(&rt, rt.alloc())?;
    is_told(
        &rt,
        text.as_str(),
        " #1 65536 done, 1: 5 ~1 firm 1: 5, 1: 5 ~1",
    );
    Ok(())
}
