// What no clause says: that calls succeed where memory is ample, and that the ids are those that a person finds.
use crate::filling::{fill, take_first};
use range_index::{GridIndex, ListIndex, RangeIndex};
use sheet_refs::{Cell, Range, range_of};
use std::alloc::Global;
use std::test::Fail;
use tree_index::TreeIndex;

// The ranges from A1 to each of the first thousand rows of column A: to the even rows, and then to the odd ones.
fn prefixes(alloc: Global) -> Result<Vec<Range>, Fail> {
    let head = Cell::new(1, 1).ok_or("no cell")?;
    let mut ranges = Vec::new(alloc);
    for half in 1..501 {
        ranges.push(Range::of(head, Cell::new(2 * half, 1).ok_or("no cell")?))?;
    }
    for half in 1..501 {
        ranges.push(Range::of(head, Cell::new(2 * half - 1, 1).ok_or("no cell")?))?;
    }
    Ok(ranges)
}

// How many ids an index answers, and the first and the last of them.
type Found = (usize, Option<usize>, Option<usize>);

fn found<I: RangeIndex>(alloc: Global, index: &I, query: Range) -> Result<Found, Fail> {
    let mut ids = Vec::new(alloc);
    index.overlapping(query, &mut ids)?;
    ids.sort()?;
    Ok((ids.len(), ids.first().copied(), ids.last().copied()))
}

// What is found of the prefixes, before and after those that end in even rows are taken out.
fn found_prefixes<I: RangeIndex + Drop>(
    alloc: Global,
    ranges: &[Range],
    query: Range,
) -> Result<(Found, Found), Fail> {
    if ranges.len() != 1000 {
        return Err(Fail::from("not a thousand"));
    }
    let mut index = I::empty(alloc);
    fill(&mut index, ranges)?;
    let before = found(alloc, &index, query)?;
    take_first(&mut index, ranges, 500);
    let after = found(alloc, &index, query)?;
    Ok((before, after))
}

// Of the prefixes that end in row 500 or below there are 501; without those that end in even rows there are 250.
const FOUND: (Found, Found) = ((501, Some(249), Some(999)), (250, Some(750), Some(999)));

#[test]
fn prefixes_of_a_column(rt: HostRuntime) -> Result<(), Fail> {
    let query = range_of(b"A500").ok_or("no range")?;
    let ranges = prefixes(rt.alloc())?;
    let list = found_prefixes::<ListIndex>(rt.alloc(), &ranges, query)?;
    let grid = found_prefixes::<GridIndex>(rt.alloc(), &ranges, query)?;
    let tree = found_prefixes::<TreeIndex>(rt.alloc(), &ranges, query)?;
    assert_eq!(rt; (list, grid, tree), (FOUND, FOUND, FOUND));
    Ok(())
}
