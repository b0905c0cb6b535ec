// The ranges of all formulas of a sheet in one list.
ghost use Rattle.std.specs.Prelude.{◌≡◌, ◌≤◌, ◌+◌, ◌*◌, IsTrue, IfOk, OnOk, List};
ghost use Rattle.sheet_refs.specs.Refs.{AreRefs};
ghost use Rattle.sheet_refs.specs.Sizes.{is_inside, place_of};
ghost use Rattle.formula_syntax.specs.Listing.{IsOnceEach};
ghost use Rattle.sheet_model.specs.Ranges.{ranges_in};
ghost use Rattle.sheet_model.specs.Sheets.{content_of, ContentValue};
ghost use Rattle.edit_log.specs.Listings.{AreListed, ListsFirst, ListsAll, content_at};

use sheet_model::Sheet;
use sheet_refs::{Cell, Memory, Range, Refs};
use std::alloc::Global;

/// The ranges of a sheet's formulas, one cell behind the other, row by row.
///
/// Formulas lie in memory in the order in which they were read, row by row. A graph wants them column by column, and in
/// that order each formula has to be fetched from afar: so their ranges are listed as they lie, and looked up here.
#[derive(Drop)]
pub(crate) struct Listing {
    ranges: Vec<Range>,
    // Where the ranges of each cell begin, and behind them where those of the last cell end.
    bounds: Vec<usize>,
}

impl Listing {
    // The list of no cell, with room for so many.
    fn new(alloc: Global, cells: usize) -> Result<Listing, Memory>
        requires { cells ≤ 1048576 }
        ensures { IfOk result (λ listing. (contents : List ContentValue) →
            AreListed contents 0 listing.ranges.items listing.bounds.items) }
    {
        let mut bounds = Vec::with_capacity(alloc, cells + 1)?;
        bounds.push(0)?;
        Ok(Listing {
            ranges: Vec::new(alloc),
            bounds,
        })
    }

    // Puts the ranges of one more cell behind the others.
    fn add(&mut self, refs: &Refs) -> Result<(), Memory>
        ensures { OnOk result ((contents : List ContentValue) (count : _) →
            AreListed contents count self.old.ranges.items self.old.bounds.items →
            IsOnceEach (ranges_in (content_at contents count)) refs.now →
            AreListed contents (count + 1) self.new.ranges.items self.new.bounds.items) }
    {
        self.ranges.extend_from_slice(refs.ranges())?;
        self.bounds.push(self.ranges.len())?;
        Ok(())
    }

    /// The ranges of the formula in a cell of the sheet, each once; none where it has no formula.
    pub(crate) fn at(&self, sheet: &Sheet, cell: Cell) -> &[Range]
        requires lists { ListsAll sheet.now self.now }
        requires inside { IsTrue (is_inside sheet.now.sizes cell) }
        ensures once { IsOnceEach (ranges_in (content_of sheet.now cell)) result.now }
        ensures refs { AreRefs result.now }
    {
        let place = sheet.place(cell);
        &self.ranges[self.bounds[place]..self.bounds[place + 1]]
    }
}

// Lists the ranges of the cells of a row.
fn list_row(alloc: Global, sheet: &Sheet, row: u32, listing: &mut Listing) -> Result<(), Memory>
    requires row { (1 ≤ row) × (row ≤ sheet.now.sizes.rows) }
    requires before { ListsFirst sheet.now (place_of sheet.now.sizes (record { row = row; col = 1 })) listing.old }
    ensures { OnOk result
        (ListsFirst sheet.now (place_of sheet.now.sizes (record { row = row + 1; col = 1 })) listing.new) }
{
    for col in 1..sheet.cols() + 1 {
        let cell = Cell::new(row, col).unwrap();
        let refs = sheet.content(cell).refs(alloc)?;
        listing.add(&refs)?;
    }
    Ok(())
}

/// Lists the ranges of a sheet's formulas. It looks at each cell once.
pub(crate) fn list_all(alloc: Global, sheet: &Sheet) -> Result<Listing, Memory>
    ensures { IfOk result (ListsAll sheet.now) }
{
    let cells = sheet.rows() as usize * sheet.cols() as usize;
    let mut listing = Listing::new(alloc, cells)?;
    for row in 1..sheet.rows() + 1 {
        list_row(alloc, sheet, row, &mut listing)?;
    }
    Ok(listing)
}
