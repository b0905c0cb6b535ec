// The tiles of the space of names, and the one at which a range stands.
ghost use Rattle.std.specs.Prelude.{◌≡◌, ◌<◌};
ghost use Rattle.range_index.specs.Grids.{tile_height as height_of_tiles, tile_width as width_of_tiles};
ghost use Rattle.range_index.specs.Grids.{home_of as home, FitsNames};

use sheet_refs::{MAX_COLS, MAX_ROWS, Range};

/// The heights of tiles, from the least to that of all rows.
pub(crate) const HEIGHTS: [u32; 4] = [8, 1024, 32_768, MAX_ROWS];

/// The widths of tiles, from the least to that of all columns.
pub(crate) const WIDTHS: [u32; 3] = [1, 64, MAX_COLS];

/// A tile: its height and width, and its row and column among the tiles of this kind, from 0.
#[derive(Clone, Copy, Debug, PartialEq, Eq, Hash)]
pub(crate) struct Home {
    pub(crate) height: u32,
    pub(crate) width: u32,
    pub(crate) row: u32,
    pub(crate) col: u32,
}

/// A place of a home.
#[derive(Clone, Copy, Debug, PartialEq, Eq, Hash)]
pub(crate) struct Slot {
    pub(crate) home: Home,
    pub(crate) place: usize,
}

// The height of the tiles at which ranges of a height stand, and the width.
fn tile_height(rows: u32) -> u32
    ensures height { result ≡ height_of_tiles rows }
    ensures some { 0 < result }
{
    if rows <= HEIGHTS[0] {
        HEIGHTS[0]
    } else if rows <= HEIGHTS[1] {
        HEIGHTS[1]
    } else if rows <= HEIGHTS[2] {
        HEIGHTS[2]
    } else {
        HEIGHTS[3]
    }
}

fn tile_width(cols: u32) -> u32
    ensures width { result ≡ width_of_tiles cols }
    ensures some { 0 < result }
{
    if cols <= WIDTHS[0] {
        WIDTHS[0]
    } else if cols <= WIDTHS[1] {
        WIDTHS[1]
    } else {
        WIDTHS[2]
    }
}

// The tile at which a range stands.
pub(crate) fn home_of(range: Range) -> Home
    ensures home { result ≡ home range }
    ensures fits { FitsNames range }
{
    let (head, tail) = (range.head(), range.tail());
    let height = tile_height(tail.row() - head.row() + 1);
    let width = tile_width(tail.col() - head.col() + 1);
    Home {
        height,
        width,
        row: (head.row() - 1) / height,
        col: (head.col() - 1) / width,
    }
}
