ghost use Rattle.std.specs.Prelude.{◌≡◌, ◌<◌, ◌≤◌, length, false, All, IfOk, OnOk, MatchOption, IsTrue};
ghost use Rattle.std.specs.BTreeSet.{IsEmpty, contains};
ghost use Rattle.std.specs.Ordering.{nat_cmp};
ghost use Rattle.sheet_refs.specs.Sizes.{cell_count, is_inside, place_of};
ghost use Rattle.play_machine.specs.Machine.{IsFirstCell, IsMarked, IsNowhere, IsTurn, mark_of, without_mark};
ghost use Rattle.play_machine.specs.Waiting.{AddsWaiter, AreWaiters, IsQueue, IsWaiter, MayWait};
ghost use Rattle.play_machine.specs.Waiting.{NoneMarked, Places, PlacesWaiter, SetsAside, TakesWaiters};
ghost use Rattle.play_machine.specs.Waiting.Unplaced.{listed, nothing, one, waiting};

use crate::marks::mark_at;
use crate::waiter::Waiter;
use sheet_model::Sheet;
use sheet_refs::{Cell, Memory, Sizes};
use std::alloc::Global;
use std::collections::{BTreeMap, BTreeSet};

/// What turns of work go by: the places of the ready cells, and for each other marked cell one marked cell in its
/// references, on which it waits. No cell at a place below `first` is marked.
///
/// A cell that an edit touches is placed anew, and stays where it waited before; there it is passed over, since its
/// mark is another one. No cell waits with a mark above `last`, and `touched` counts the cells that edits have touched.
#[derive(Drop)]
pub(crate) struct Queue {
    pub(crate) ready: BTreeSet<usize>,
    pub(crate) waits: BTreeMap<usize, Vec<Waiter>>,
    pub(crate) first: usize,
    pub(crate) last: u64,
    pub(crate) touched: usize,
}

// Takes out those that wait on the cell at a place; where none does, a list with room for so many.
fn take_waiters(
    alloc: Global,
    waits: &mut BTreeMap<usize, Vec<Waiter>>,
    place: usize,
    room: usize,
) -> Result<Vec<Waiter>, Memory>
    ensures { IfOk result (λ list. TakesWaiters waits.old waits.new place list.items) }
{
    match waits.remove(&place) {
        Some(list) => Ok(list),
        None => Ok(Vec::with_capacity(alloc, room)?),
    }
}

// Adds one to those that wait on the cell at a place. Mostly it is the only one, so the list begins with room for one.
fn add_waiter(
    alloc: Global,
    waits: &mut BTreeMap<usize, Vec<Waiter>>,
    place: usize,
    waiter: Waiter,
) -> Result<(), Memory>
    ensures { OnOk result (AddsWaiter waits.old waits.new place waiter) }
{
    let mut list = take_waiters(alloc, waits, place, 1)?;
    list.push(waiter)?;
    waits.insert(place, list)?;
    Ok(())
}

// The first marked cell, row by row, where none is marked at a place below `from`.
fn first_marked(sheet: &Sheet, marks: &[u64], from: usize) -> Option<Cell>
    requires count { length marks.now ≡ cell_count sheet.now.sizes }
    requires before { NoneMarked sheet.now.sizes marks.now from }
    ensures { MatchOption result
        (IsNowhere sheet.now.sizes (IsMarked sheet.now.sizes marks.now))
        (IsFirstCell sheet.now.sizes (IsMarked sheet.now.sizes marks.now)) }
{
    let sizes = sheet.sizes();
    for place in from..marks.len() {
        let cell = sizes.cell_at(place);
        if mark_at(sizes, marks, cell) != 0 {
            return Some(cell);
        }
    }
    None
}

impl Queue {
    /// The queue of a sheet with marks. It looks at each cell, and of each marked one at its references, up to the
    /// first marked cell there.
    pub(crate) fn of(alloc: Global, sheet: &Sheet, marks: &[u64]) -> Result<Queue, Memory>
        requires count { length marks.now ≡ cell_count sheet.now.sizes }
        ensures { IfOk result (IsQueue sheet.now marks.now nothing) }
    {
        let sizes = sheet.sizes();
        let mut queue = Queue {
            ready: BTreeSet::new(alloc),
            waits: BTreeMap::new(alloc),
            first: 0,
            last: 0,
            touched: 0,
        };
        for place in 0..marks.len() {
            queue.add(alloc, sheet, marks, sizes.cell_at(place))?;
        }
        Ok(queue)
    }

    // Puts a cell where it belongs, where it is marked.
    fn add(&mut self, alloc: Global, sheet: &Sheet, marks: &[u64], cell: Cell) -> Result<(), Memory>
        requires count { length marks.now ≡ cell_count sheet.now.sizes }
        requires inside { IsTrue (is_inside sheet.now.sizes cell) }
        ensures { OnOk result (Places sheet.now marks.now cell self.old self.new) }
    {
        let mark = mark_at(sheet.sizes(), marks, cell);
        if mark == 0 {
            return Ok(());
        }
        let waiter = Waiter::new(alloc, sheet, marks, cell, mark)?;
        self.last = self.last.max(mark);
        self.keep(alloc, sheet, marks, waiter)
    }

    // Lets a marked cell look on, and keeps it where it is to wait, or among the ready ones.
    fn keep(
        &mut self,
        alloc: Global,
        sheet: &Sheet,
        marks: &[u64],
        waiter: Waiter,
    ) -> Result<(), Memory>
        requires count { length marks.now ≡ cell_count sheet.now.sizes }
        requires waiter { IsWaiter sheet.now marks.now waiter }
        requires marked { IsMarked sheet.now.sizes marks.now waiter.cell }
        requires mark { mark_of sheet.now.sizes marks.now waiter.cell ≡ waiter.mark }
        requires known { waiter.mark ≤ self.old.last }
        ensures places { OnOk result (Places sheet.now marks.now waiter.cell self.old self.new) }
        ensures last { OnOk result (self.new.last ≡ self.old.last) }
    {
        let mut waiter = waiter;
        match waiter.look_on(sheet, marks) {
            Some(input) => add_waiter(alloc, &mut self.waits, sheet.place(input), waiter),
            None => {
                self.ready.insert(sheet.place(waiter.cell))?;
                Ok(())
            }
        }
    }

    // Lets cells that waited look on.
    fn wake(
        &mut self,
        alloc: Global,
        sheet: &Sheet,
        marks: &[u64],
        woken: Vec<Waiter>,
    ) -> Result<(), Memory>
        requires count { length marks.now ≡ cell_count sheet.now.sizes }
        requires queue { IsQueue sheet.now marks.now (waiting woken.items) self.old }
        requires waiters { AreWaiters sheet.now marks.now self.old.last woken.items }
        ensures { OnOk result (IsQueue sheet.now marks.now nothing self.new) }
    {
        let mut woken = woken;
        while let Some(waiter) = woken.pop() {
            self.wake_one(alloc, sheet, marks, waiter)?;
        }
        Ok(())
    }

    // Lets a cell look on, if it still has the mark with which it waited.
    fn wake_one(
        &mut self,
        alloc: Global,
        sheet: &Sheet,
        marks: &[u64],
        waiter: Waiter,
    ) -> Result<(), Memory>
        requires count { length marks.now ≡ cell_count sheet.now.sizes }
        requires waiter { MayWait sheet.now marks.now self.old.last waiter }
        ensures places { OnOk result (PlacesWaiter sheet.now marks.now waiter self.old self.new) }
        ensures last { OnOk result (self.new.last ≡ self.old.last) }
    {
        if mark_at(sheet.sizes(), marks, waiter.cell) != waiter.mark {
            return Ok(());
        }
        self.keep(alloc, sheet, marks, waiter)
    }

    /// Whether the queue is to be kept through an edit that touches so many cells and has a number. Edits may leave as
    /// many waiting cells behind as the sheet has cells.
    pub(crate) fn outlasts(&self, touched: usize, number: u64, cells: usize) -> bool
        ensures { IsTrue result → self.now.last < number }
    {
        self.last < number && self.touched.saturating_add(touched) <= cells
    }

    /// Takes cells that an edit touches from the ready ones.
    pub(crate) fn set_aside(&mut self, sizes: Sizes, cells: &[Cell], number: u64)
        requires inside { All (λ cell. IsTrue (is_inside sizes cell)) cells.now }
        ensures { SetsAside sizes cells.now number self.old self.new }
    {
        self.last = number;
        self.touched = self.touched.saturating_add(cells.len());
        for cell in cells {
            let place = sizes.place(*cell);
            self.ready.remove(&place);
            self.first = self.first.min(place);
        }
    }

    /// Puts listed cells where they belong.
    pub(crate) fn place(
        &mut self,
        alloc: Global,
        sheet: &Sheet,
        marks: &[u64],
        cells: &[Cell],
    ) -> Result<(), Memory>
        requires count { length marks.now ≡ cell_count sheet.now.sizes }
        requires inside { All (λ cell. IsTrue (is_inside sheet.now.sizes cell)) cells.now }
        requires queue { IsQueue sheet.now marks.now (listed cells.now 0) self.old }
        ensures { OnOk result (IsQueue sheet.now marks.now nothing self.new) }
    {
        for cell in cells {
            self.add(alloc, sheet, marks, *cell)?;
        }
        Ok(())
    }

    // Takes the mark of a cell away, which alone is not placed.
    fn clear(
        &mut self,
        alloc: Global,
        sheet: &Sheet,
        cell: Cell,
        marks: &mut Vec<u64>,
    ) -> Result<(), Memory>
        requires count { length marks.old.items ≡ cell_count sheet.now.sizes }
        requires queue { IsQueue sheet.now marks.old.items (one cell) self.old }
        requires taken { contains nat_cmp self.old.ready (place_of sheet.now.sizes cell) ≡ false }
        requires inside { IsTrue (is_inside sheet.now.sizes cell) }
        ensures marks { OnOk result
            (marks.new.items ≡ without_mark sheet.now.sizes marks.old.items cell) }
        ensures queue { OnOk result (IsQueue sheet.now marks.new.items nothing self.new) }
    {
        let place = sheet.place(cell);
        let woken = take_waiters(alloc, &mut self.waits, place, 0)?;
        marks[place] = 0;
        self.wake(alloc, sheet, marks, woken)
    }

    // A turn where no cell is ready.
    fn clear_first(
        &mut self,
        alloc: Global,
        sheet: &Sheet,
        marks: &mut Vec<u64>,
    ) -> Result<(), Memory>
        requires count { length marks.old.items ≡ cell_count sheet.now.sizes }
        requires queue { IsQueue sheet.now marks.old.items nothing self.old }
        requires none { IsEmpty self.old.ready }
        ensures turn { OnOk result (IsTurn sheet.now marks.old.items marks.new.items) }
        ensures queue { OnOk result (IsQueue sheet.now marks.new.items nothing self.new) }
    {
        let Some(cell) = first_marked(sheet, marks, self.first) else {
            return Ok(());
        };
        self.first = sheet.place(cell);
        self.clear(alloc, sheet, cell, marks)
    }

    /// A turn. Each cell that waits on the cleared one looks on: over all turns that takes a look for each cell that a
    /// formula names, and one more where it waits. Each waiting, and each choice of a ready cell, takes a search in an
    /// ordered map.
    pub(crate) fn turn(
        &mut self,
        alloc: Global,
        sheet: &Sheet,
        marks: &mut Vec<u64>,
    ) -> Result<(), Memory>
        requires count { length marks.old.items ≡ cell_count sheet.now.sizes }
        requires queue { IsQueue sheet.now marks.old.items nothing self.old }
        ensures turn { OnOk result (IsTurn sheet.now marks.old.items marks.new.items) }
        ensures queue { OnOk result (IsQueue sheet.now marks.new.items nothing self.new) }
    {
        match self.ready.pop_first() {
            Some(place) => {
                let cell = sheet.sizes().cell_at(place);
                self.clear(alloc, sheet, cell, marks)
            }
            None => self.clear_first(alloc, sheet, marks),
        }
    }
}
