ghost use Rattle.std.specs.Prelude.{◌≡◌, ◌+◌, ◌≤◌, ◌<◌, [], ◌++◌, length, List};
ghost use Rattle.std.specs.Option.{option_to_list};
ghost use Rattle.sheet_refs.specs.Rectangles.{Tile, IsLeft, IsBetween};

use crate::cell::Cell;
use crate::range::Range;
use std::marker::Model;

/// At most four disjoint ranges: what is left of a range without another.
#[derive(Debug, Drop)]
pub struct Pieces {
    ranges: [Range; 4],
    count: usize,
}

impl Model for Pieces {
    ghost use Rattle.std.specs.Prelude.{List, take, ◌≤◌};
    ghost use Rattle.sheet_refs.specs.Cells.{Corners};

    ghost Value = { List Corners };

    ghost view = { λ p. take p.count p.ranges };

    ghost invariant = { λ p. p.count ≤ 4 };
}

impl Pieces {
    /// The ranges, each of at least one cell.
    pub fn ranges(&self) -> &[Range]
        ensures { result.now ≡ self.now }
    {
        &self.ranges[..self.count]
    }

    // No pieces; the range only fills the places that are to be written.
    fn none(filler: Range) -> Pieces
        ensures { result ≡ [] }
    {
        Pieces {
            ranges: [filler; 4],
            count: 0,
        }
    }

    fn push(&mut self, piece: Option<Range>)
        requires { length self.old < 4 }
        ensures { self.new ≡ self.old ++ option_to_list piece }
    {
        if let Some(range) = piece {
            self.ranges[self.count] = range;
            self.count += 1;
        }
    }
}

// The range of some rows and columns, each from the first to the one before the end, if it has a cell.
fn area(top: u32, bottom: u32, left: u32, right: u32) -> Option<Range>
    requires rows { (1 ≤ top) × (bottom ≤ 1048577) }
    requires cols { (1 ≤ left) × (right ≤ 16385) }
    ensures { Tile (option_to_list result) (IsBetween top bottom left right) }
{
    if top < bottom && left < right {
        let head = Cell::new(top, left).unwrap();
        let tail = Cell::new(bottom - 1, right - 1).unwrap();
        Some(Range::of(head, tail))
    } else {
        None
    }
}

impl Range {
    /// What is left of the range without the cells of the other: above, below, to the left and to the right of them.
    pub fn subtract(&self, other: &Range) -> Pieces
        ensures few { length result ≤ 4 }
        ensures left { Tile result (IsLeft self.now other.now) }
    {
        let mut pieces = Pieces::none(*self);
        let Some(middle) = self.meet(other) else {
            pieces.push(Some(*self));
            return pieces;
        };
        let top = self.head().row();
        let bottom = self.tail().row() + 1;
        let left = self.head().col();
        let right = self.tail().col() + 1;
        let middle_top = middle.head().row();
        let middle_bottom = middle.tail().row() + 1;
        pieces.push(area(top, middle_top, left, right));
        pieces.push(area(middle_bottom, bottom, left, right));
        pieces.push(area(middle_top, middle_bottom, left, middle.head().col()));
        pieces.push(area(middle_top, middle_bottom, middle.tail().col() + 1, right));
        pieces
    }
}
