ghost use Rattle.std.specs.Prelude.{◌≡◌};
ghost use Rattle.std.specs.Thread.{IsSync};
ghost use Rattle.live_sheet.specs.Setups.{IsNamedBy};

use crate::fields::four_cells;
use crate::gate::UntilAnswered;
use crate::stories::{Story, edit, firm, look};
use crate::texts::{write_beside, write_turn};
use live_sheet::{
    Desk, Live, Naming, Opened, Pass, Setup, desks_cross, live_crosses, passes_cross,
};
use recalc_workers::{OpenGate, Turn};
use sheet_refs::{Range, Sizes};
use std::alloc::Global;
use std::marker::Brand;
use std::sync::Wait;
use std::sync::atomic::Ordering;
use std::test::Fail;
use std::thread::{Threads, join};
use trial_parts::hold;

// Three turns at a desk.
fn turns<N: Naming, R: Wait>(
    rt: &R,
    live: &Live<N>,
    desk: &mut Desk<N>,
    text: &mut String,
) -> Result<(), Fail> {
    for _ in 0..3 {
        write_turn(text, &live.work(rt, desk, &OpenGate))?;
    }
    Ok(())
}

// Edits, looks, and takes three turns at a desk.
fn edits_and_turns<N: Naming, R: Wait>(
    rt: &R,
    live: &Live<N>,
    pass: &mut Pass<N>,
    desk: &mut Desk<N>,
    sizes: Sizes,
    change: (&str, &str),
    story: &mut Story,
) -> Result<(), Fail>
    requires { sizes ≡ N.opening.sizes }
{
    edit(rt, live, pass, change, story)?;
    look(live, pass, sizes, story)?;
    turns(rt, live, desk, &mut story.text)
}

// Does this once a worker is between its claim and its put, and then lets that one go on.
fn overtakes<N: Naming, R: Wait>(
    rt: &R,
    alloc: Global,
    live: &Live<N>,
    pass: &mut Pass<N>,
    desk: &mut Desk<N>,
    sizes: Sizes,
    range: Range,
    change: (&str, &str),
    gate: &UntilAnswered,
) -> Result<String, Fail>
    requires { sizes ≡ N.opening.sizes }
{
    let mut story = Story::new(alloc, range)?;
    hold(&gate.claims, 1, &gate.late);
    edits_and_turns(rt, live, pass, desk, sizes, change, &mut story)?;
    gate.answers.store(1, Ordering::SeqCst);
    Ok(story.into_text())
}

// A look and a firm look, behind what is told so far.
fn looks_twice<N: Naming, R: Threads + Wait + Sync>(
    rt: &R,
    live: &Live<N>,
    pass: &mut Pass<N>,
    sizes: Sizes,
    story: &mut Story,
) -> Result<(), Fail>
    requires { sizes ≡ N.opening.sizes }
{
    story.text.push_str(", ")?;
    look(live, pass, sizes, story)?;
    firm(rt, live, pass, sizes, story)
}

// Overtakes a worker's turn by a second edit, and tells what came of both.
fn runs_beside<N: Naming + Send + Sync, R: Threads + Wait + Sync>(
    rt: &R,
    alloc: Global,
    live: &Live<N>,
    pass: &mut Pass<N>,
    desk: &mut Desk<N>,
    other: &mut Desk<N>,
    sizes: Sizes,
    range: Range,
    change: (&str, &str),
    gate: &UntilAnswered,
) -> (Turn, Result<String, Fail>)
    requires { sizes ≡ N.opening.sizes }
{
    live_crosses::<N>();
    passes_cross::<N>();
    desks_cross::<N>();
    join(
        rt,
        || -> Turn
            requires { IsSync R.row }
        { live.work(rt, desk, gate) },
        || -> Result<String, Fail>
            requires { IsSync R.row × (sizes ≡ N.opening.sizes) }
        { overtakes(rt, alloc, live, pass, other, sizes, range, change, gate) },
    )
}

// Edits, overtakes a worker's turn by a second edit, and looks.
fn edits_twice<N: Naming + Send + Sync, R: Threads + Wait + Sync>(
    rt: &R,
    alloc: Global,
    live: &Live<N>,
    pass: &mut Pass<N>,
    desk: &mut Desk<N>,
    other: &mut Desk<N>,
    sizes: Sizes,
    first: (&str, &str),
    second: (&str, &str),
    gate: &UntilAnswered,
    story: &mut Story,
) -> Result<(), Fail>
    requires { sizes ≡ N.opening.sizes }
{
    edit(rt, live, pass, first, story)?;
    let range = story.range;
    let (turn, told) = runs_beside(
        rt, alloc, live, pass, desk, other, sizes, range, second, gate,
    );
    write_beside(&mut story.text, told, &turn)?;
    looks_twice(rt, live, pass, sizes, story)
}

// Opens a sheet, and has a worker's turn at its last desk held until an edit has overtaken it.
fn opens<N: Naming + Send + Sync, R: Threads + Wait + Sync>(
    rt: &R,
    alloc: Global,
    setup: Setup,
    sizes: Sizes,
    first: (&str, &str),
    second: (&str, &str),
    gate: &UntilAnswered,
    story: &mut Story,
) -> Result<(), Fail>
    requires named { IsNamedBy N.name N.parts N.words N.queue N.opening N.clients setup }
    requires sizes { sizes ≡ N.opening.sizes }
{
    let Opened {
        live,
        mut passes,
        mut desks,
    } = Live::<N>::open(alloc, setup)?;
    let (Some(mut pass), Some(mut desk), Some(mut other)) = (passes.pop(), desks.pop(), desks.pop())
    else {
        return Err(Fail::from("no pass or no desks"));
    };
    edits_twice(
        rt, alloc, &live, &mut pass, &mut desk, &mut other, sizes, first, second, gate, story,
    )
}

// The same over four cells, with one client and two desks, where two cells are to hold a field each.
fn held<R: Threads + Wait + Sync>(
    rt: &R,
    alloc: Global,
    first: (&str, &str),
    second: (&str, &str),
    gate: &UntilAnswered,
    story: &mut Story,
) -> Result<(), Fail> {
    let sheet = four_cells(alloc)?;
    let sizes = sheet.sizes();
    let setup = Setup::new(alloc, sheet, 1, 2)?;
    opens::<Brand, _>(rt, alloc, setup, sizes, first, second, gate, story)
}

// What is told of this, and whether a hold came to its limit.
fn told<R: Threads + Wait + Sync>(
    rt: &R,
    alloc: Global,
    first: (&str, &str),
    second: (&str, &str),
) -> Result<(String, u64), Fail> {
    let gate = UntilAnswered::new();
    let mut story = Story::of(alloc, "A1:B2")?;
    held(rt, alloc, first, second, &gate, &mut story)?;
    Ok((story.into_text(), gate.late.load(Ordering::SeqCst)))
}

// A worker that has claimed A1 is held until an edit of A1 was committed, a look was answered and another desk has
// turned. What it puts then is never shown as the value of A1.
#[test]
fn a_worker_is_overtaken_by_an_edit(rt: HostRuntime) -> Result<(), Fail> {
    let (text, late) = told(&rt, rt.alloc(), ("A1", "5"), ("A1", "6"))?;
    let wanted =
        " #1  #2 2: ~2 ~2 2 ~2 B1 waits for A1 at 2 B2 waits for B1 at 2 A1 is held A1 is done, \
                  2: ~2 ~2 2 ~2 firm 2: 6 7 2 9";
    assert_eq!(rt; (text.as_str(), late), (wanted, 0));
    Ok(())
}
