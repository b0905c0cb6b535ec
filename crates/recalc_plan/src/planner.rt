ghost use Rattle.std.specs.Prelude.{◌≡◌, ◌≢◌, ◌↔◌, ◌+◌, length, AllPairs, Contains, IfOk, OnOk};
ghost use Rattle.std.specs.BTreeMap.{btree_map_len as count_of};
ghost use Rattle.sheet_refs.specs.Cells.{Position};
ghost use Rattle.recalc_plan.specs.Opens.{AddsWaiter, AreCells, AreOpenedFor, IsOpen, TakesOut};
ghost use Rattle.recalc_plan.specs.Opens.{Wakes};
ghost use Rattle.recalc_plan.specs.Taking.{ListsOpen, TakesOne, WakesOne};

use crate::opens::{Open, place_of};
use crate::waiter::Waiter;
use sheet_refs::{Cell, Memory};
use std::alloc::Global;
use std::collections::BTreeMap;

/// The stale cells that stand in no level yet, by the places of their names.
#[derive(Drop)]
pub(crate) struct Planner {
    pub(crate) open: BTreeMap<u64, Open>,
}

/// A level, and those that waited on its cells.
#[derive(Drop)]
pub(crate) struct Taken {
    pub(crate) level: Vec<Cell>,
    pub(crate) woken: Vec<Waiter>,
}

impl Planner {
    /// All stale cells are open, and none waits.
    pub(crate) fn of(alloc: Global, stale: &[Cell]) -> Result<Planner, Memory>
        ensures { IfOk result (λ planner. AreOpenedFor stale.now planner.open) }
    {
        let mut open = BTreeMap::new(alloc);
        for cell in stale {
            let entry = Open {
                cell: *cell,
                waiters: Vec::new(alloc),
            };
            open.insert(place_of(*cell), entry)?;
        }
        Ok(Planner { open })
    }

    // Adds one to those that wait on an open cell.
    fn add(&mut self, cell: Cell, waiter: Waiter) -> Result<(), Memory>
        requires cells { AreCells self.old.open }
        requires open { IsOpen self.old.open cell }
        ensures added { OnOk result (AddsWaiter self.old.open self.new.open cell waiter) }
        ensures count { OnOk result (count_of self.new.open ≡ count_of self.old.open) }
    {
        let Some(mut entry) = self.open.remove(&place_of(cell)) else {
            unreachable!()
        };
        entry.waiters.push(waiter)?;
        self.open.insert(place_of(cell), entry)?;
        Ok(())
    }

    // Lets one look on: it waits on what it finds, or is ready.
    fn wake_one(&mut self, waiter: Waiter, ready: &mut Vec<Cell>) -> Result<(), Memory>
        requires cells { AreCells self.old.open }
        ensures woken { OnOk result
            (WakesOne self.old.open self.new.open waiter ready.old.items ready.new.items) }
        ensures count { OnOk result (count_of self.new.open ≡ count_of self.old.open) }
    {
        let mut waiter = waiter;
        match waiter.look_on(&self.open) {
            Some(cell) => self.add(cell, waiter)?,
            None => ready.push(waiter.cell)?,
        }
        Ok(())
    }

    /// Lets all look on, and answers the cells that have no open cell left.
    pub(crate) fn wake(&mut self, alloc: Global, woken: Vec<Waiter>) -> Result<Vec<Cell>, Memory>
        requires cells { AreCells self.old.open }
        ensures woken { IfOk result
            (λ ready. Wakes self.old.open self.new.open woken.items ready.items) }
        ensures count { OnOk result (count_of self.new.open ≡ count_of self.old.open) }
    {
        let mut ready = Vec::new(alloc);
        let mut woken = woken;
        while let Some(waiter) = woken.pop() {
            self.wake_one(waiter, &mut ready)?;
        }
        Ok(ready)
    }

    /// Takes cells out, as far as they are open, with those that wait on them.
    pub(crate) fn take_out(&mut self, alloc: Global, cells: &[Cell]) -> Result<Taken, Memory>
        requires cells { AreCells self.old.open }
        ensures taken { IfOk result (λ taken.
            TakesOut self.old.open self.new.open cells.now taken.level.items taken.woken.items) }
        ensures fewer { IfOk result (λ taken.
            count_of self.new.open + length taken.level.items ≡ count_of self.old.open) }
    {
        let mut taken = Taken {
            level: Vec::new(alloc),
            woken: Vec::new(alloc),
        };
        for cell in cells {
            self.take_one(*cell, &mut taken)?;
        }
        Ok(taken)
    }

    // Takes a cell out, if it is open.
    fn take_one(&mut self, cell: Cell, taken: &mut Taken) -> Result<(), Memory>
        requires cells { AreCells self.old.open }
        ensures taken { OnOk result (TakesOne self.old.open self.new.open cell taken.old taken.new) }
        ensures fewer { OnOk result
            (count_of self.new.open + length taken.new.level.items
            ≡ count_of self.old.open + length taken.old.level.items) }
    {
        let Some(entry) = self.open.remove(&place_of(cell)) else {
            return Ok(());
        };
        let mut waiters = entry.waiters;
        taken.level.push(cell)?;
        taken.woken.append(&mut waiters)?;
        Ok(())
    }

    /// The cells of a list that are open still, in their order.
    pub(crate) fn still_open(&self, alloc: Global, cells: &[Cell]) -> Result<Vec<Cell>, Memory>
        requires cells { AreCells self.now.open }
        requires distinct { AllPairs (λ a b. a ≢ b) cells.now }
        requires named { (cell : Position) → IsOpen self.now.open cell → Contains cells.now cell }
        ensures exact { IfOk result (λ left. (cell : Position)
            → Contains left.items cell ↔ IsOpen self.now.open cell) }
        ensures distinct { IfOk result (λ left. AllPairs (λ a b. a ≢ b) left.items) }
    {
        let mut left = Vec::new(alloc);
        for cell in cells {
            self.list_open(*cell, &mut left)?;
        }
        Ok(left)
    }

    // Lists a cell, if it is open.
    fn list_open(&self, cell: Cell, left: &mut Vec<Cell>) -> Result<(), Memory>
        requires cells { AreCells self.now.open }
        ensures { OnOk result (ListsOpen self.now.open cell left.old.items left.new.items) }
    {
        if self.open.contains_key(&place_of(cell)) {
            left.push(cell)?;
            return Ok(());
        }
        Ok(())
    }
}
