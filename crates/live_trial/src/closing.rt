ghost use Rattle.live_sheet.specs.Setups.{IsNamedBy};

use crate::fields::four_cells;
use crate::texts::{is_told, write_closed};
use live_sheet::{Live, Naming, Opened, Setup};
use recalc_workers::OpenGate;
use sheet_model::Sheet;
use std::alloc::Global;
use std::marker::Brand;
use std::sync::Wait;
use std::test::Fail;
use std::thread::Threads;

// Opens a live sheet and closes it at once, and tells how many entries it leaves, and the values.
fn opens_and_closes<N: Naming, R: Threads + Wait + Sync>(
    rt: &R,
    alloc: Global,
    setup: Setup,
) -> Result<String, Fail>
    requires { IsNamedBy N.name N.parts N.words N.queue N.opening N.clients setup }
{
    let opened = Live::<N>::open(alloc, setup)?;
    let Opened {
        live,
        passes,
        desks,
    } = opened;
    let Ok(closed) = live.close(rt, passes, desks, &OpenGate) else {
        return Err(Fail::from("a sheet that is not closed"));
    };
    let mut text = String::new(alloc);
    write_closed(&mut text, &closed)?;
    Ok(text)
}

// The same over a sheet, for two clients and four workers.
fn closed<R: Threads + Wait + Sync>(rt: &R, alloc: Global, sheet: Sheet) -> Result<String, Fail> {
    let setup = Setup::new(alloc, sheet, 2, 4)?;
    opens_and_closes::<Brand, _>(rt, alloc, setup)
}

#[test]
fn a_sheet_at_whose_desks_nobody_worked_is_closed(rt: HostRuntime) -> Result<(), Fail> {
    let text = closed(&rt, rt.alloc(), four_cells(rt.alloc())?)?;
    is_told(&rt, text.as_str(), "0: 1 2 2 4");
    Ok(())
}
