// Cells whose pairs come when all runs down have theirs.
ghost use Rattle.std.specs.Prelude.{◌≡◌, ◌<◌, ◌++◌, ◌∷◌, [], IsTrue, OnOk};
ghost use Rattle.sheet_refs.specs.Refs.{AreRefs};
ghost use Rattle.sheet_refs.specs.Sizes.{cell_count, is_inside, place_of};
ghost use Rattle.graph_walk.specs.Graphs.{Replaces};
ghost use Rattle.edit_log.specs.Listings.{ListsAll};
ghost use Rattle.edit_log.specs.Pairs.{ArePairsOf};
ghost use Rattle.edit_log.specs.Waiting.{AddsPairsAt, AreInside, AreOfSheet, AreThereOrWait, HaveNoPlaces};

use crate::listing::Listing;
use graph_walk::Graph;
use sheet_model::Sheet;
use sheet_refs::{Cell, Memory, Range, Refs};
use std::alloc::Global;

/// The places of cells whose pairs are still to come.
#[derive(Drop)]
pub(crate) struct Waiting {
    // Of those that go on with cells to their right.
    across: Vec<usize>,
    // Of those that no cell goes on with, above or below one of these, column by column.
    alone: Vec<usize>,
}

impl Waiting {
    /// No cell waits.
    pub(crate) fn new(alloc: Global) -> Waiting
        ensures { HaveNoPlaces result }
    {
        Waiting {
            across: Vec::new(alloc),
            alone: Vec::new(alloc),
        }
    }

    /// Puts a cell behind those that go on with cells to their right.
    pub(crate) fn put_across(&mut self, sheet: &Sheet, cell: Cell) -> Result<(), Memory>
        requires inside { IsTrue (is_inside sheet.now.sizes cell) }
        ensures across { OnOk result
            (self.new.across.items ≡ self.old.across.items ++ place_of sheet.now.sizes cell ∷ []) }
        ensures alone { self.new.alone ≡ self.old.alone }
    {
        self.across.push(sheet.place(cell))?;
        Ok(())
    }

    /// Puts a cell behind those that no cell goes on with.
    pub(crate) fn put_alone(&mut self, sheet: &Sheet, cell: Cell) -> Result<(), Memory>
        requires inside { IsTrue (is_inside sheet.now.sizes cell) }
        ensures alone { OnOk result
            (self.new.alone.items ≡ self.old.alone.items ++ place_of sheet.now.sizes cell ∷ []) }
        ensures across { self.new.across ≡ self.old.across }
    {
        self.alone.push(sheet.place(cell))?;
        Ok(())
    }
}

/// Gives a cell its pairs.
pub(crate) fn add_alone<G: Graph>(
    alloc: Global,
    graph: &mut G,
    cell: Cell,
    ranges: &[Range],
) -> Result<(), Memory>
    requires { AreRefs ranges.now }
    ensures { OnOk result (Replaces (G.pairs graph.old) (G.pairs graph.new) cell ranges.now) }
{
    let refs = Refs::of(alloc, ranges)?;
    graph.reserve(1)?;
    graph.replace(cell, &refs);
    Ok(())
}

// The cell at a place.
fn cell_there(sheet: &Sheet, place: usize) -> Cell
    requires { place < cell_count sheet.now.sizes }
    ensures inside { IsTrue (is_inside sheet.now.sizes result) }
    ensures place { place_of sheet.now.sizes result ≡ place }
{
    sheet.sizes().cell_at(place)
}

// Gives the cells at some places their pairs, one cell after the other.
fn add_each<G: Graph>(
    alloc: Global,
    graph: &mut G,
    sheet: &Sheet,
    listing: &Listing,
    places: &[usize],
) -> Result<(), Memory>
    requires lists { ListsAll sheet.now listing.now }
    requires inside { AreInside sheet.now places.now }
    requires pairs { AreOfSheet sheet.now (G.pairs graph.old) }
    ensures { OnOk result (AddsPairsAt sheet.now places.now (G.pairs graph.old) (G.pairs graph.new)) }
{
    for place in places {
        let cell = cell_there(sheet, *place);
        add_alone(alloc, graph, cell, listing.at(sheet, cell))?;
    }
    Ok(())
}

/// Adds the pairs that are still to come: first those of cells that go on to the right, row by row, so that each row is
/// joined as a whole, and then those of cells by themselves. It sorts the places.
pub(crate) fn add_waiting<G: Graph>(
    alloc: Global,
    graph: &mut G,
    sheet: &Sheet,
    listing: &Listing,
    waiting: &mut Waiting,
) -> Result<(), Memory>
    requires lists { ListsAll sheet.now listing.now }
    requires rest { AreThereOrWait sheet.now (G.pairs graph.old) waiting.old }
    ensures { OnOk result (ArePairsOf sheet.now (G.pairs graph.new)) }
{
    waiting.across.sort_unstable();
    add_each(alloc, graph, sheet, listing, &waiting.across)?;
    add_each(alloc, graph, sheet, listing, &waiting.alone)?;
    Ok(())
}
