ghost use Rattle.std.specs.Prelude.{◌≡◌, ℕ, Option, IsTrue, IfSome};

use sheet_refs::{Cell, Range};

/// The values that an evaluation takes: of a rectangle of cells that begins at A1, and of some of its
/// cells the codes of their values.
pub trait Inputs {
    ghost use Rattle.sheet_refs.specs.Cells.{Position};
    ghost use Rattle.sheet_refs.specs.declared.sizes.Sizes.{Sizes};
    ghost use Rattle.sheet_refs.specs.Sizes.{is_inside};
    ghost use Rattle.formula_eval.specs.Blocks.{HoldsBlock, IsInRectangle};
    ghost use Rattle.formula_eval.specs.Inputs.{IsCode};

    ghost sizes: { Self → Sizes };

    ghost codes: { Self → Position → Option ℕ };

    /// The number of rows.
    fn rows(&self) -> u32
        ensures { result ≡ (sizes self.now).rows };

    /// The number of columns.
    fn cols(&self) -> u32
        ensures { result ≡ (sizes self.now).cols };

    /// The code of the value of a cell of the rectangle; None where it isn't known.
    fn get(&self, cell: Cell) -> Option<u64>
        requires { IsTrue (is_inside (sizes self.now) cell) }
        ensures held { result ≡ codes self.now cell }
        ensures code { IfSome result IsCode };

    /// The codes of a range's cells as they lie in memory, where they lie in a block: sums are then added without a
    /// call for each cell.
    fn block(&self, range: Range) -> Option<Block<'_>>
        requires { IsInRectangle (sizes self.now) range }
        ensures { IfSome result (HoldsBlock (codes self.now) range) }
    {
        None
    }
}

/// Words in memory for the cells of a range, of which those of a row lie side by side: the first is that of the head.
/// Where the code of a cell is known, it is the cell's word.
#[derive(Clone, Copy)]
pub struct Block<'a> {
    /// The words, among others.
    pub words: &'a [u64],
    /// How far each row is behind the one above it.
    pub step: usize,
}

/// A cell whose value isn't known yet.
#[derive(Clone, Copy, Debug, PartialEq, Eq)]
pub struct Missing {
    /// The cell.
    pub cell: Cell,
}
