use std::sync::atomic::{AtomicU64, Ordering};
use std::thread::yield_now;

/// The most turns of a hold: a turn is one look at the flag and one yield.
const TURNS: u32 = 10_000_000;

/// Holds until the count is as great as that. Where the limit of turns ends it, the flag is set.
pub fn hold(count: &AtomicU64, least: u64, late: &AtomicU64) {
    for _ in 0..TURNS {
        if count.load(Ordering::SeqCst) >= least {
            return;
        }
        yield_now();
    }
    late.store(1, Ordering::SeqCst);
}
