ghost use Rattle.std.specs.Prelude.{◌≡◌};
ghost use Rattle.live_sheet.specs.Setups.{IsNamedBy};

use crate::fields::{four_cells, sheet_of};
use crate::single::{Single, opens};
use crate::stories::{Story, edit, look, looks_and_edits, work};
use crate::texts::is_told;
use live_sheet::{Desk, Live, Naming, Pass, Setup};
use recalc_workers::OpenGate;
use sheet_model::Sheet;
use sheet_refs::Sizes;
use std::alloc::Global;
use std::marker::Brand;
use std::sync::Wait;
use std::test::Fail;
use std::thread::Threads;

// Looks, edits, looks, takes turns at a desk, and looks again.
fn goes<N: Naming, R: Wait>(
    rt: &R,
    live: &Live<N>,
    pass: &mut Pass<N>,
    desk: &mut Desk<N>,
    sizes: Sizes,
    change: (&str, &str),
    turns: u32,
    story: &mut Story,
) -> Result<(), Fail>
    requires { sizes ≡ N.opening.sizes }
{
    looks_and_edits(rt, live, pass, sizes, change, story)?;
    work(rt, live, desk, turns, &mut story.text)?;
    look(live, pass, sizes, story)
}

// Opens a sheet for this.
fn edits_and_works<N: Naming, R: Wait>(
    rt: &R,
    alloc: Global,
    setup: Setup,
    sizes: Sizes,
    change: (&str, &str),
    turns: u32,
    story: &mut Story,
) -> Result<(), Fail>
    requires named { IsNamedBy N.name N.parts N.words N.queue N.opening N.clients setup }
    requires alone { N.clients ≡ 1 }
    requires sizes { sizes ≡ N.opening.sizes }
{
    let Single {
        live,
        mut pass,
        mut desk,
    } = opens::<N>(alloc, setup)?;
    goes(rt, &live, &mut pass, &mut desk, sizes, change, turns, story)
}

// The same over a sheet, with one client and one desk.
fn worked<R: Wait>(
    rt: &R,
    alloc: Global,
    sheet: Sheet,
    change: (&str, &str),
    turns: u32,
    story: &mut Story,
) -> Result<(), Fail> {
    let sizes = sheet.sizes();
    let setup = Setup::new(alloc, sheet, 1, 1)?;
    edits_and_works::<Brand, _>(rt, alloc, setup, sizes, change, turns, story)
}

// What is told of this, with looks at a range.
fn told<R: Wait>(
    rt: &R,
    alloc: Global,
    sheet: Sheet,
    range: &str,
    change: (&str, &str),
    turns: u32,
) -> Result<String, Fail> {
    let mut story = Story::of(alloc, range)?;
    worked(rt, alloc, sheet, change, turns, &mut story)?;
    Ok(story.into_text())
}

#[test]
fn an_edit_leaves_its_cells_stale_where_no_desk_works(rt: HostRuntime) -> Result<(), Fail> {
    let alloc = rt.alloc();
    let text = told(&rt, alloc, four_cells(alloc)?, "A1:B2", ("A1", "5"), 0)?;
    is_told(
        &rt,
        text.as_str(),
        "0: 1 ~0 2 ~0 #1 1: ~1 ~1 2 ~1 1: ~1 ~1 2 ~1",
    );
    Ok(())
}

#[test]
fn one_desk_computes_a_cycle(rt: HostRuntime) -> Result<(), Fail> {
    let alloc = rt.alloc();
    let sheet = sheet_of(alloc, 1, 2, &[("A1", "1"), ("B1", "=A1")])?;
    let text = told(&rt, alloc, sheet, "A1:B1", ("A1", "=B1"), 3)?;
    is_told(
        &rt,
        text.as_str(),
        "0: 1 ~0 #1 1: ~1 ~1 A1 B1 idle 1: #CIRC! #CIRC!",
    );
    Ok(())
}

// Edits twice, settles, and looks.
fn settles<N: Naming, R: Threads + Wait + Sync>(
    rt: &R,
    live: &Live<N>,
    pass: &mut Pass<N>,
    sizes: Sizes,
    first: (&str, &str),
    second: (&str, &str),
    story: &mut Story,
) -> Result<(), Fail>
    requires { sizes ≡ N.opening.sizes }
{
    edit(rt, live, pass, first, story)?;
    edit(rt, live, pass, second, story)?;
    live.settle(rt, pass, &OpenGate)?;
    look(live, pass, sizes, story)
}

// Opens a sheet for this.
fn edits_and_settles<N: Naming, R: Threads + Wait + Sync>(
    rt: &R,
    alloc: Global,
    setup: Setup,
    sizes: Sizes,
    first: (&str, &str),
    second: (&str, &str),
    story: &mut Story,
) -> Result<(), Fail>
    requires named { IsNamedBy N.name N.parts N.words N.queue N.opening N.clients setup }
    requires alone { N.clients ≡ 1 }
    requires sizes { sizes ≡ N.opening.sizes }
{
    let Single { live, mut pass, .. } = opens::<N>(alloc, setup)?;
    settles(rt, &live, &mut pass, sizes, first, second, story)
}

// The same over a sheet, with one client and two desks.
fn settled<R: Threads + Wait + Sync>(
    rt: &R,
    alloc: Global,
    sheet: Sheet,
    first: (&str, &str),
    second: (&str, &str),
    story: &mut Story,
) -> Result<(), Fail> {
    let sizes = sheet.sizes();
    let setup = Setup::new(alloc, sheet, 1, 2)?;
    edits_and_settles::<Brand, _>(rt, alloc, setup, sizes, first, second, story)
}

// What is told of this over four cells.
fn told_of_settling<R: Threads + Wait + Sync>(rt: &R, alloc: Global) -> Result<String, Fail> {
    let mut story = Story::of(alloc, "A1:B2")?;
    let (first, second) = (("A1", "5"), ("A2", "=a1 * 2"));
    settled(rt, alloc, four_cells(alloc)?, first, second, &mut story)?;
    Ok(story.into_text())
}

#[test]
fn settling_computes_all_cells(rt: HostRuntime) -> Result<(), Fail> {
    let text = told_of_settling(&rt, rt.alloc())?;
    is_told(&rt, text.as_str(), " #1  #2 2: 5 6 10 16");
    Ok(())
}
