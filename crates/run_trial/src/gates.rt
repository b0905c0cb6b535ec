use recalc_workers::Gate;
use sheet_refs::Cell;
use std::sync::atomic::{AtomicU64, Ordering};
use std::thread::yield_now;
use trial_parts::hold;

/// Holds a client ahead of one of its commands until a worker is between its claim and its put of a cell.
#[derive(Drop)]
pub(crate) struct UntilClaimed {
    pub(crate) client: u32,
    pub(crate) number: u32,
    pub(crate) cell: Cell,
    pub(crate) claims: AtomicU64,
    pub(crate) late: AtomicU64,
}

impl Gate for UntilClaimed {
    fn between(&self, cell: Cell) {
        if cell == self.cell {
            let _ = self.claims.fetch_add(1, Ordering::SeqCst);
        }
    }

    fn before(&self, client: u32, number: u32) {
        if client == self.client && number == self.number {
            hold(&self.claims, 1, &self.late);
        }
    }
}

/// Has a client yield 200,000 times ahead of one command, and holds it ahead of a later one until the cell was claimed
/// twice.
#[derive(Drop)]
pub(crate) struct AfterLong {
    pub(crate) claimed: UntilClaimed,
    pub(crate) number: u32,
}

impl Gate for AfterLong {
    fn between(&self, cell: Cell) {
        self.claimed.between(cell);
    }

    fn before(&self, client: u32, number: u32) {
        if client != self.claimed.client {
            return;
        }
        if number == self.number {
            for _ in 0..200_000 {
                yield_now();
            }
        }
        if number == self.claimed.number {
            hold(&self.claimed.claims, 2, &self.claimed.late);
        }
    }
}

/// Holds the first worker that is between a claim and a put until there is a second one, and the client ahead of one of
/// its commands until both are there.
#[derive(Drop)]
pub(crate) struct UntilTwo {
    pub(crate) client: u32,
    pub(crate) number: u32,
    pub(crate) claims: AtomicU64,
    pub(crate) late: AtomicU64,
}

impl Gate for UntilTwo {
    fn between(&self, _: Cell) {
        if self.claims.fetch_add(1, Ordering::SeqCst) == 0 {
            hold(&self.claims, 2, &self.late);
        }
    }

    fn before(&self, client: u32, number: u32) {
        if client == self.client && number == self.number {
            hold(&self.claims, 2, &self.late);
        }
    }
}

/// Has two clients go on in turn: the first client waits ahead of its third command until the second one is ahead of
/// its third, and the second waits ahead of its first command until the first one waits.
#[derive(Drop)]
pub(crate) struct InTurn {
    pub(crate) first: AtomicU64,
    pub(crate) second: AtomicU64,
    pub(crate) late: AtomicU64,
}

impl Gate for InTurn {
    fn between(&self, _: Cell) {}

    fn before(&self, client: u32, number: u32) {
        if client == 0 && number == 3 {
            self.first.store(1, Ordering::SeqCst);
            hold(&self.second, 1, &self.late);
        }
        if client == 1 && number == 1 {
            hold(&self.first, 1, &self.late);
        }
        if client == 1 && number == 3 {
            self.second.store(1, Ordering::SeqCst);
        }
    }
}
