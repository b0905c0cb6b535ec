ghost use Rattle.std.specs.Prelude.{◌≡◌};
ghost use Rattle.live_sheet.specs.Setups.{IsNamedBy};

use crate::fields::four_cells;
use crate::single::{Single, opens};
use crate::stories::{Story, edit, look, work};
use crate::texts::is_told;
use live_sheet::{Desk, Live, Naming, Pass, Setup};
use sheet_refs::Sizes;
use std::alloc::Global;
use std::marker::Brand;
use std::sync::Wait;
use std::test::Fail;

// Takes a turn at a desk between two edits, two turns after them, and looks.
fn edits_between<N: Naming, R: Wait>(
    rt: &R,
    live: &Live<N>,
    pass: &mut Pass<N>,
    desk: &mut Desk<N>,
    sizes: Sizes,
    first: (&str, &str),
    second: (&str, &str),
    story: &mut Story,
) -> Result<(), Fail>
    requires { sizes ≡ N.opening.sizes }
{
    edit(rt, live, pass, first, story)?;
    work(rt, live, desk, 1, &mut story.text)?;
    edit(rt, live, pass, second, story)?;
    work(rt, live, desk, 2, &mut story.text)?;
    look(live, pass, sizes, story)
}

// Opens a sheet for this.
fn opens_for_edits<N: Naming, R: Wait>(
    rt: &R,
    alloc: Global,
    setup: Setup,
    sizes: Sizes,
    first: (&str, &str),
    second: (&str, &str),
    story: &mut Story,
) -> Result<(), Fail>
    requires named { IsNamedBy N.name N.parts N.words N.queue N.opening N.clients setup }
    requires alone { N.clients ≡ 1 }
    requires sizes { sizes ≡ N.opening.sizes }
{
    let Single {
        live,
        mut pass,
        mut desk,
    } = opens::<N>(alloc, setup)?;
    edits_between(rt, &live, &mut pass, &mut desk, sizes, first, second, story)
}

// What is told of this over four cells, with one client and one desk.
fn told<R: Wait>(
    rt: &R,
    alloc: Global,
    first: (&str, &str),
    second: (&str, &str),
) -> Result<String, Fail> {
    let mut story = Story::of(alloc, "A1:B2")?;
    let sheet = four_cells(alloc)?;
    let sizes = sheet.sizes();
    let setup = Setup::new(alloc, sheet, 1, 1)?;
    opens_for_edits::<Brand, _>(rt, alloc, setup, sizes, first, second, &mut story)?;
    Ok(story.into_text())
}

// The turn at A1 has the desk store what stands in B1 and B2. The later content of B1 is what the next turn computes.
#[test]
fn a_later_content_counts(rt: HostRuntime) -> Result<(), Fail> {
    let text = told(&rt, rt.alloc(), ("A1", "5"), ("B1", "=A1+10"))?;
    is_told(&rt, text.as_str(), " #1  A1  #2  B1 B2 2: 5 15 2 17");
    Ok(())
}
