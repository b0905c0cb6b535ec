use crate::script::printed_by;
use recalc_workers::Gate;
use sheet_refs::Cell;
use std::alloc::Global;
use std::sync::atomic::{AtomicU64, Ordering};
use std::test::Fail;

/// The columns of a generated sheet.
const COLS: u32 = 7;

/// Its cells.
const CELLS: usize = 7_000;

// Notes each cell that is between a claim and its put.
#[derive(Drop)]
struct Noting {
    cells: Vec<AtomicU64>,
}

impl Gate for Noting {
    fn between(&self, cell: Cell) {
        let place = (cell.row() as usize - 1) * COLS as usize + (cell.col() as usize - 1);
        if let Some(noted) = self.cells.get(place) {
            noted.store(1, Ordering::SeqCst);
        }
    }

    fn before(&self, _: u32, _: u32) {}
}

impl Noting {
    fn new(alloc: Global) -> Result<Noting, Fail> {
        let mut cells = Vec::with_capacity(alloc, CELLS)?;
        for _ in 0..CELLS {
            cells.push(AtomicU64::new(0))?;
        }
        Ok(Noting { cells })
    }

    // How many of the cells right of column A were noted.
    fn formulas(&self) -> u32 {
        let mut count = 0_u32;
        for (place, noted) in self.cells.iter().enumerate() {
            if place % COLS as usize != 0 && noted.load(Ordering::SeqCst) == 1 && count < 10_000 {
                count += 1;
            }
        }
        count
    }
}

// The sum was computed by a program in another language.
#[test]
fn workers_compute_each_formula(rt: HostRuntime) -> Result<(), Fail> {
    let alloc = rt.alloc();
    for workers in ["1", "4"] {
        let gate = Noting::new(alloc)?;
        let words = ["gen", "1", "--workers", workers];
        let text = printed_by(&rt, alloc, &words, &[], &gate)?;
        assert_eq!(rt;
            (text.as_str(), gate.formulas()),
            ("gen 1\ncells 7000\nedits 100\nsum 1387998746\n", 6_000),
            "{workers} workers"
        );
    }
    Ok(())
}
