// How ranges are put in order where an index is to pack them.
use sheet_refs::{MAX_ROWS, Range};

// The class of a length, of which this is one less: 32 for up to 16, and one less for each doubling.
#[inline(always)]
fn length_class(beyond_first: u32) -> u32 {
    (beyond_first / 16).leading_zeros()
}

/// The size class of a range: that of its height, and that of its width. Up to 16 rows or columns are one class, and
/// each doubling is the next one; larger ranges have smaller numbers.
#[inline(always)]
pub fn size_class(range: Range) -> (u32, u32) {
    let (head, tail) = (range.head(), range.tail());
    let high = length_class(tail.row() - head.row());
    let wide = length_class(tail.col() - head.col());
    (high, wide)
}

/// By what ranges are sorted for `InsertOrder::ByPlace`: first by their size classes, large ones first, since among
/// small ones a large one would widen what holds them; and then by their heads along a path that goes down the first
/// column, up the second one and so on, on which neighbours lie near one another also where one column ends and the
/// next one begins.
pub fn packing_key(range: Range) -> (u32, u32, u32, u32) {
    let (high, wide) = size_class(range);
    let head = range.head();
    let row = if head.col() % 2 == 0 {
        MAX_ROWS - head.row()
    } else {
        head.row()
    };
    (high, wide, head.col(), row)
}
