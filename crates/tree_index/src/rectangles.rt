// Rectangles that hold others.
ghost use Rattle.std.specs.Prelude.{◌↔◌, ◌≡◌, IsTrue, IsNone, IfSome, length, max, min};
ghost use Rattle.sheet_refs.specs.Rectangles.{Overlap};
ghost use Rattle.tree_index.specs.Rectangles.{AreCrossed, Covers, CoverAll, IsLeast, IsSpan};

use range_index::Item;
use sheet_refs::{Cell, Range};

// The cell at the top left of two. It makes no cell anew where one of them is it, as where entries come in order.
#[inline(always)]
fn upper(a: Cell, b: Cell) -> Cell
    ensures row { result.row ≡ min a.row b.row }
    ensures col { result.col ≡ min a.col b.col }
{
    if a.row() <= b.row() && a.col() <= b.col() {
        return a;
    }
    if b.row() <= a.row() && b.col() <= a.col() {
        return b;
    }
    Range::of(a, b).head()
}

// The cell at the bottom right of two.
#[inline(always)]
fn lower(a: Cell, b: Cell) -> Cell
    ensures row { result.row ≡ max a.row b.row }
    ensures col { result.col ≡ max a.col b.col }
{
    if b.row() <= a.row() && b.col() <= a.col() {
        return a;
    }
    if a.row() <= b.row() && a.col() <= b.col() {
        return b;
    }
    Range::of(a, b).tail()
}

/// The smallest rectangle that has both.
pub(crate) fn span(a: Range, b: Range) -> Range
    ensures first { Covers result a }
    ensures second { Covers result b }
    ensures least { IsSpan a b result }
{
    if covers(a, b) {
        return a;
    }
    Range::of(upper(a.head(), b.head()), lower(a.tail(), b.tail()))
}

/// Whether each cell of the one is a cell of the other.
pub(crate) fn covers(outer: Range, inner: Range) -> bool
    ensures { IsTrue result ↔ Covers outer inner }
{
    let (head, tail) = (outer.head(), outer.tail());
    let rows = head.row() <= inner.head().row() && inner.tail().row() <= tail.row();
    rows && head.col() <= inner.head().col() && inner.tail().col() <= tail.col()
}

// Whether neither rectangle ends before the other begins.
#[inline(always)]
fn are_crossed(a: Range, b: Range) -> bool
    ensures { IsTrue result ↔ AreCrossed a b }
{
    let rows = a.head().row() <= b.tail().row() && b.head().row() <= a.tail().row();
    rows && a.head().col() <= b.tail().col() && b.head().col() <= a.tail().col()
}

/// Whether two rectangles share a cell. It compares no further than it has to: most differ in their rows.
#[inline(always)]
pub(crate) fn meet(a: Range, b: Range) -> bool
    ensures { IsTrue result ↔ Overlap a b }
{
    let _ = (a.head(), b.head());
    are_crossed(a, b)
}

/// The smallest rectangle that has all of some; None exactly where there is none.
pub(crate) fn span_of_all(items: &[Item]) -> Option<Range>
    ensures none { IsNone result ↔ (length items.now ≡ 0) }
    ensures covers { IfSome result (λ range. CoverAll range items.now) }
    ensures least { IfSome result (λ range. IsLeast range items.now) }
{
    let Some(first) = items.first() else {
        return None;
    };
    let mut whole = first.range;
    for item in items {
        whole = span(whole, item.range);
    }
    Some(whole)
}
