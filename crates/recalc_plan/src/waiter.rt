ghost use Rattle.std.specs.Prelude.{MatchOption};
ghost use Rattle.recalc_plan.specs.Opens.{AreCells, FindsOpen, HasNoneLeft, LooksOn};

use crate::opens::{Open, open_in};
use sheet_refs::{Cell, MAX_COLS, Range};
use std::collections::BTreeMap;

/// A cell, and where direct precedents of it may still be open: in the ranges that are left, of whose last one the
/// columns up to `up_to` alone are left.
#[derive(Drop)]
pub(crate) struct Waiter {
    pub(crate) cell: Cell,
    pub(crate) left: Vec<Range>,
    pub(crate) up_to: u32,
}

impl Waiter {
    /// Looks on to an open cell in what is left, from the last column of the last range on. Over all its looks a cell
    /// asks once for each column of its ranges, and once more each time that it waits.
    pub(crate) fn look_on(&mut self, opens: &BTreeMap<u64, Open>) -> Option<Cell>
        requires cells { AreCells opens.now }
        ensures looks { LooksOn opens.now self.old self.new }
        ensures found { MatchOption result
            (HasNoneLeft opens.now self.old) (FindsOpen opens.now self.old) }
    {
        while !self.left.is_empty() {
            let range = self.left[self.left.len() - 1];
            if let Some(cell) = open_in(opens, range, self.up_to) {
                self.up_to = cell.col();
                return Some(cell);
            }
            self.left.pop();
            self.up_to = MAX_COLS;
        }
        None
    }
}
