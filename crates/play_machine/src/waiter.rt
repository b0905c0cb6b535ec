ghost use Rattle.std.specs.Prelude.{◌≡◌, length, IfOk, MatchOption, IsTrue};
ghost use Rattle.sheet_refs.specs.Sizes.{cell_count, is_inside};
ghost use Rattle.play_machine.specs.Marking.{HasNoMark};
ghost use Rattle.play_machine.specs.Waiting.{HasNoMarkedInput, IsMarkedInput, IsNextMarked, IsSeen, IsWaiter};

use crate::marks::mark_at;
use sheet_model::Sheet;
use sheet_refs::{Cell, Memory, Range, Refs, Sizes};
use std::alloc::Global;

/// A cell that waits until no cell in its references is marked, and how far it has looked at these: no cell is marked
/// in the first `range` ranges, nor among the first `place` cells of the next range's part in the rectangle. It waits
/// as long as it has the mark with which it began.
#[derive(Drop)]
pub(crate) struct Waiter {
    pub(crate) cell: Cell,
    pub(crate) mark: u64,
    pub(crate) refs: Refs,
    pub(crate) range: usize,
    pub(crate) place: u64,
}

// The first marked cell of a range from a place on, with its place among the range's cells in the rectangle.
fn next_marked(sizes: Sizes, marks: &[u64], range: Range, from: u64) -> Option<(u64, Cell)>
    requires count { length marks.now ≡ cell_count sizes }
    requires seen { IsSeen sizes marks.now range from }
    ensures { MatchOption result
        (HasNoMark sizes marks.now range) (IsNextMarked sizes marks.now range) }
{
    let Some(part) = sizes.clip(range) else {
        return None;
    };
    for place in from..part.cells() {
        let cell = part.cell_at(place);
        if mark_at(sizes, marks, cell) != 0 {
            return Some((place, cell));
        }
    }
    None
}

impl Waiter {
    /// A cell with a mark that hasn't looked yet.
    pub(crate) fn new(
        alloc: Global,
        sheet: &Sheet,
        marks: &[u64],
        cell: Cell,
        mark: u64,
    ) -> Result<Waiter, Memory>
        requires inside { IsTrue (is_inside sheet.now.sizes cell) }
        ensures cell { IfOk result (λ waiter. waiter.cell ≡ cell) }
        ensures mark { IfOk result (λ waiter. waiter.mark ≡ mark) }
        ensures waiter { IfOk result (IsWaiter sheet.now marks.now) }
    {
        let refs = sheet.content(cell).refs(alloc)?;
        Ok(Waiter {
            cell,
            mark,
            refs,
            range: 0,
            place: 0,
        })
    }

    /// Looks on to the next marked cell in the references, and answers it. Over all its turns a cell looks once at each
    /// cell in its references, and once more at each one on which it waited.
    pub(crate) fn look_on(&mut self, sheet: &Sheet, marks: &[u64]) -> Option<Cell>
        requires count { length marks.now ≡ cell_count sheet.now.sizes }
        requires waiter { IsWaiter sheet.now marks.now self.old }
        ensures cell { self.new.cell ≡ self.old.cell }
        ensures mark { self.new.mark ≡ self.old.mark }
        ensures waiter { IsWaiter sheet.now marks.now self.new }
        ensures found { MatchOption result
            (HasNoMarkedInput sheet.now marks.now self.old.cell)
            (IsMarkedInput sheet.now marks.now self.old.cell) }
    {
        let sizes = sheet.sizes();
        while self.range < self.refs.ranges().len() {
            let range = self.refs.ranges()[self.range];
            if let Some(found) = next_marked(sizes, marks, range, self.place) {
                self.place = found.0;
                return Some(found.1);
            }
            self.range += 1;
            self.place = 0;
        }
        None
    }
}
