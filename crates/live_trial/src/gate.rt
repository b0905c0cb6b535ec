use recalc_workers::Gate;
use sheet_refs::Cell;
use std::sync::atomic::{AtomicU64, Ordering};
use trial_parts::hold;

/// Holds a worker between its claim and its put until somebody else has done something.
#[derive(Drop)]
pub(crate) struct UntilAnswered {
    pub(crate) claims: AtomicU64,
    pub(crate) answers: AtomicU64,
    pub(crate) late: AtomicU64,
}

impl UntilAnswered {
    /// A gate at which nobody has been.
    pub(crate) fn new() -> UntilAnswered {
        UntilAnswered {
            claims: AtomicU64::new(0),
            answers: AtomicU64::new(0),
            late: AtomicU64::new(0),
        }
    }
}

impl Gate for UntilAnswered {
    fn between(&self, _: Cell) {
        let _ = self.claims.fetch_add(1, Ordering::SeqCst);
        hold(&self.answers, 1, &self.late);
    }

    fn before(&self, _: u32, _: u32) {}
}
