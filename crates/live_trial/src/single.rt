ghost use Rattle.std.specs.Prelude.{◌≡◌, IfOk};
ghost use Rattle.live_sheet.specs.Passes.{client_of};
ghost use Rattle.live_sheet.specs.Setups.{IsNamedBy};

use live_sheet::{Desk, Live, Naming, Opened, Pass, Setup};
use std::alloc::Global;
use std::test::Fail;

/// A live sheet of one client, with one of its desks.
#[derive(Drop)]
pub(crate) struct Single<N: Naming> {
    pub(crate) live: Live<N>,
    pub(crate) pass: Pass<N>,
    pub(crate) desk: Desk<N>,
}

/// Opens a live sheet.
pub(crate) fn opens<N: Naming>(alloc: Global, setup: Setup) -> Result<Single<N>, Fail>
    requires named { IsNamedBy N.name N.parts N.words N.queue N.opening N.clients setup }
    requires alone { N.clients ≡ 1 }
    ensures { IfOk result (λ single. client_of single.pass ≡ 0) }
{
    let Opened {
        live,
        mut passes,
        mut desks,
    } = Live::<N>::open(alloc, setup)?;
    let (Some(pass), Some(desk)) = (passes.pop(), desks.pop()) else {
        return Err(Fail::from("no pass or no desk"));
    };
    Ok(Single { live, pass, desk })
}
