// The index by tiles.
use crate::index::{InsertOrder, RangeIndex};
use crate::tables::Tables;
use sheet_refs::{Memory, Range};
use std::alloc::Global;
use std::marker::Model;

/// An index by tiles of the space of names.
///
/// Each range stands at one home: a tile of rows and columns, the one in which its head lies. There are twelve kinds of
/// tile, of four heights and three widths, and a range's kind is the smallest that is as high and as wide as the range
/// itself. So the ranges of a kind that overlap a query have their heads in the query, or less than a tile above it or
/// to its left, and a query looks at the homes there, of each kind that is no higher and no wider than a range has ever
/// been. Where these are more than there are entries it looks at all entries instead.
///
/// The entries of a home have the places from 0 up to its count, and a table has each entry under its home and place;
/// another has the home and place of each id. A removal puts the last entry of a home into the place that becomes free.
///
/// Costs, as looks into a table: an insert takes four and a removal six at most, whatever else is there. A query of
/// one cell takes one for each home near it, which are two where all ranges have one column and up to eight rows, and
/// never more than twenty-eight, and one for each entry of these. `bench/index.py` measures it beside the list and the
/// tree.
#[derive(Drop)]
pub struct GridIndex {
    tables: Tables,
}

impl Model for GridIndex {
    ghost use Rattle.range_index.specs.Grids.{GridValue, HoldGrid, grid_value};

    ghost Value = { GridValue };

    ghost view = { λ i. grid_value i.tables };

    ghost invariant = { λ i. HoldGrid i.tables };
}

impl RangeIndex for GridIndex {
    ghost entries = { λ i. i.entries };

    ghost spare = { λ i. i.spare };

    fn empty(alloc: Global) -> GridIndex {
        GridIndex {
            tables: Tables::empty(alloc),
        }
    }

    fn reserve(&mut self, inserts: u32) -> Result<(), Memory> {
        self.tables.reserve(inserts as usize)
    }

    fn set_insert_order(&mut self, order: InsertOrder) {}

    fn insert(&mut self, id: usize, range: Range) {
        self.tables.add(id, range);
    }

    fn remove(&mut self, id: usize, range: Range) {
        self.tables.take_out(id);
    }

    fn change(&mut self, id: usize, from: Range, to: Range) {
        self.tables.change(id, to);
    }

    fn overlapping(&self, q: Range, out: &mut Vec<usize>) -> Result<(), Memory> {
        self.tables.visit(q, out)
    }
}
