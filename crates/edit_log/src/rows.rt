ghost use Rattle.std.specs.Prelude.{◌≡◌, ◌<◌, ◌++◌, flat_map, All, IfOk, OnOk};
ghost use Rattle.sheet_refs.specs.Rectangles.{IsAmong, AreMaximalRuns};
ghost use Rattle.sheet_refs.specs.Sizes.{cell_count, AreNamed};
ghost use Rattle.edit_log.specs.Rows.{run_places, LieInside, IsInside, AreCellsAt};
ghost use Rattle.edit_log.specs.Touches.{ListsRowByRow};

use sheet_refs::{Cell, Memory, Range, Sizes};
use std::alloc::Global;

// Adds the places of a run's cells.
fn push_places(places: &mut Vec<usize>, sizes: Sizes, run: Range) -> Result<(), Memory>
    requires { IsInside sizes run }
    ensures { OnOk result (places.new.items ≡ places.old.items ++ run_places sizes run) }
{
    for k in 0..run.cells() {
        let place = sizes.place(run.cell_at(k));
        places.push(place)?;
    }
    Ok(())
}

// The places of the cells of some runs.
fn places_of(alloc: Global, sizes: Sizes, runs: &[Range]) -> Result<Vec<usize>, Memory>
    requires { LieInside sizes runs.now }
    ensures { IfOk result (λ places. places.items ≡ flat_map (run_places sizes) runs.now) }
{
    let mut places = Vec::new(alloc);
    for run in runs {
        push_places(&mut places, sizes, *run)?;
    }
    Ok(places)
}

// The cells at some places.
fn cells_at(alloc: Global, sizes: Sizes, places: &[usize]) -> Result<Vec<Cell>, Memory>
    requires named { AreNamed sizes }
    requires within { All (λ place. place < cell_count sizes) places.now }
    ensures { IfOk result (λ cells. AreCellsAt sizes places.now cells.items) }
{
    let mut cells = Vec::with_capacity(alloc, places.len())?;
    for place in places {
        let cell = sizes.cell_at(*place);
        cells.push(cell)?;
    }
    Ok(cells)
}

/// The cells of some runs of a rectangle, row by row. It takes the time of a sort of so many numbers.
pub(crate) fn cells_by_row(alloc: Global, sizes: Sizes, runs: &[Range]) -> Result<Vec<Cell>, Memory>
    requires named { AreNamed sizes }
    requires runs { AreMaximalRuns runs.now }
    requires inside { LieInside sizes runs.now }
    ensures { IfOk result (λ cells. ListsRowByRow sizes cells.items (IsAmong runs.now)) }
{
    let mut places = places_of(alloc, sizes, runs)?;
    places.sort_unstable();
    cells_at(alloc, sizes, &places)
}
