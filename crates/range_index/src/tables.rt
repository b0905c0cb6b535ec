// What a query does by tiles.
ghost use Rattle.std.specs.Prelude.{◌≡◌, ◌<◌, [], OnOk};
ghost use Rattle.range_index.specs.Grids.{count_at, entry_at, entries_in, HoldGrid};
ghost use Rattle.range_index.specs.Entries.{KeepsIds, AddsOverlapping};
ghost use Rattle.range_index.specs.Grids.{AddsAt, IsInRow, IsNear, IsNearAt};

use crate::item::Item;
use crate::tiles::{HEIGHTS, Home, Slot, WIDTHS};
use sheet_refs::{Memory, Range};
use std::alloc::Global;
use std::collections::HashMap;

/// The entries, each under its home and place, how many entries each home has, where each id stands, and how high and
/// how wide the tiles are at which anything has ever stood.
#[derive(Drop)]
pub(crate) struct Tables {
    pub(crate) items: HashMap<Slot, Item>,
    pub(crate) counts: HashMap<Home, usize>,
    pub(crate) slots: HashMap<usize, Slot>,
    pub(crate) tallest: u32,
    pub(crate) widest: u32,
}

impl Tables {
    /// The tables without entries.
    pub(crate) fn empty(alloc: Global) -> Tables
        ensures grid { HoldGrid result }
        ensures none { entries_in result ≡ [] }
    {
        Tables {
            items: HashMap::new(alloc),
            counts: HashMap::new(alloc),
            slots: HashMap::new(alloc),
            tallest: 0,
            widest: 0,
        }
    }

    // How many entries stand at a home.
    pub(crate) fn count(&self, home: Home) -> usize
        ensures { result ≡ count_at self.now home }
    {
        match self.counts.get(&home) {
            Some(count) => *count,
            None => 0,
        }
    }

    // What stands at a place of a home.
    fn item(&self, slot: Slot) -> Option<Item>
        ensures { result ≡ entry_at self.now slot }
    {
        match self.items.get(&slot) {
            Some(item) => Some(*item),
            None => None,
        }
    }

    // Adds the id that stands at a place, if its range overlaps the query.
    fn visit_slot(&self, q: Range, slot: Slot, out: &mut Vec<usize>) -> Result<(), Memory>
        ensures found { OnOk result
            (AddsAt self.now (λ s. s ≡ slot) q out.old.items out.new.items) }
        ensures kept { KeepsIds out.old.items out.new.items }
    {
        let Some(item) = self.item(slot) else {
            return Ok(());
        };
        if item.range.overlaps(&q) {
            out.push(item.id)?;
        }
        Ok(())
    }

    // The same of all places of a home.
    fn visit_home(&self, q: Range, home: Home, out: &mut Vec<usize>) -> Result<(), Memory>
        requires { HoldGrid self.now }
        ensures found { OnOk result
            (AddsAt self.now (λ s. s.home ≡ home) q out.old.items out.new.items) }
        ensures kept { KeepsIds out.old.items out.new.items }
    {
        for place in 0..self.count(home) {
            self.visit_slot(q, Slot { home, place }, out)?;
        }
        Ok(())
    }

    // The same of the homes of one kind in one row at which a range that overlaps the query can stand.
    fn visit_row(
        &self,
        q: Range,
        height: u32,
        width: u32,
        row: u32,
        out: &mut Vec<usize>,
    ) -> Result<(), Memory>
        requires grid { HoldGrid self.now }
        requires some { 0 < width }
        ensures found { OnOk result
            (AddsAt self.now (IsInRow q height width row) q out.old.items out.new.items) }
        ensures kept { KeepsIds out.old.items out.new.items }
    {
        let first = q.head().col().saturating_sub(width) / width;
        let last = (q.tail().col() - 1) / width;
        for col in first..last + 1 {
            let home = Home {
                height,
                width,
                row,
                col,
            };
            self.visit_home(q, home, out)?;
        }
        Ok(())
    }

    // The same of all rows.
    fn visit_kind(
        &self,
        q: Range,
        height: u32,
        width: u32,
        out: &mut Vec<usize>,
    ) -> Result<(), Memory>
        requires grid { HoldGrid self.now }
        requires some { (0 < height) × (0 < width) }
        ensures found { OnOk result
            (AddsAt self.now (IsNear q height width) q out.old.items out.new.items) }
        ensures kept { KeepsIds out.old.items out.new.items }
    {
        if self.tallest < height || self.widest < width {
            return Ok(());
        }
        let first = q.head().row().saturating_sub(height) / height;
        let last = (q.tail().row() - 1) / height;
        for row in first..last + 1 {
            self.visit_row(q, height, width, row, out)?;
        }
        Ok(())
    }

    // The same of all widths.
    fn visit_height(&self, q: Range, height: u32, out: &mut Vec<usize>) -> Result<(), Memory>
        requires grid { HoldGrid self.now }
        requires some { 0 < height }
        ensures found { OnOk result
            (AddsAt self.now (IsNearAt q height) q out.old.items out.new.items) }
        ensures kept { KeepsIds out.old.items out.new.items }
    {
        self.visit_kind(q, height, WIDTHS[0], out)?;
        self.visit_kind(q, height, WIDTHS[1], out)?;
        self.visit_kind(q, height, WIDTHS[2], out)
    }

    // Adds the ids whose ranges overlap the query, by the homes near it.
    fn visit_near(&self, q: Range, out: &mut Vec<usize>) -> Result<(), Memory>
        requires { HoldGrid self.now }
        ensures found { OnOk result
            (AddsOverlapping (entries_in self.now) q out.old.items out.new.items) }
        ensures kept { KeepsIds out.old.items out.new.items }
    {
        self.visit_height(q, HEIGHTS[0], out)?;
        self.visit_height(q, HEIGHTS[1], out)?;
        self.visit_height(q, HEIGHTS[2], out)?;
        self.visit_height(q, HEIGHTS[3], out)
    }

    // Adds the ids whose ranges overlap the query, by all entries.
    fn visit_all(&self, q: Range, out: &mut Vec<usize>) -> Result<(), Memory>
        requires { HoldGrid self.now }
        ensures found { OnOk result
            (AddsOverlapping (entries_in self.now) q out.old.items out.new.items) }
        ensures kept { KeepsIds out.old.items out.new.items }
    {
        for item in self.items.values() {
            if item.range.overlaps(&q) {
                out.push(item.id)?;
            }
        }
        Ok(())
    }

    // Whether a look at all entries takes less than one at the homes near the query.
    fn has_few(&self, q: Range) -> bool {
        let (head, tail) = (q.head(), q.tail());
        let rows = u64::from((tail.row() - head.row()) / HEIGHTS[0] + 7);
        let cols = u64::from((tail.col() - head.col()) / WIDTHS[0] + 4);
        (self.items.len() as u64) < rows * cols
    }

    /// Adds the ids whose ranges overlap the query.
    pub(crate) fn visit(&self, q: Range, out: &mut Vec<usize>) -> Result<(), Memory>
        requires { HoldGrid self.now }
        ensures found { OnOk result
            (AddsOverlapping (entries_in self.now) q out.old.items out.new.items) }
        ensures kept { KeepsIds out.old.items out.new.items }
    {
        if self.has_few(q) {
            self.visit_all(q, out)
        } else {
            self.visit_near(q, out)
        }
    }
}
