use crate::watch::Watch;
use crossbeam_utils::sync::Key;
use live_sheet::{Desk, Left, Live, Naming};
use recalc_workers::{Gate, Turn};
use std::sync::Wait;
use std::thread::yield_now;

/// How many turns in a row that find no job a worker takes before the one that ends it, also while clients go on.
const IDLE_TURNS: u32 = 65_535;

/// How far apart workers begin to look for stale cells.
const APART: usize = 131_072;

/// Settles a slice once each client has done its first command. Where that leaves stale cells which it could compute,
/// the wait is called off; else the worker sleeps. Answers how many turns in a row found no job since: the last one,
/// or none after a wake-up.
fn settle_or_sleep<N: Naming, R: Wait, T: Gate>(
    rt: &R,
    live: &Live<N>,
    watch: &Watch,
    desk: &mut Desk<N>,
    from: &mut usize,
    gate: &T,
    wait: Key<'_>,
) -> u32 {
    if watch.all_have_begun() && live.settle_slice(rt, desk, from, gate) == Left::Some {
        return 1;
    }
    wait.wait(rt);
    0
}

/// Takes turns at the desk of the worker with this number. Each turn that finds no job is followed by one yield, or
/// ends the work: where all clients had ended before it, or where it is the last of 65,536 such turns in a row.
///
/// After two such turns in a row the worker settles a slice, which ends the row where it computed cells. Else the
/// worker sleeps, until a client makes an edit or comes to its end, which ends the row too. The wait is announced
/// before the turn looks at the queue and the slice at the cells, and before the clients that are left are counted.
/// An edit has marked its cells and offered its jobs, and a client that ends is counted, before it wakes. So the
/// worker sees them, or they end the wait. A cell that another seat holds keeps nobody awake: whoever holds it looks
/// again after it.
pub(crate) fn work_on<N: Naming, R: Wait, T: Gate>(
    rt: &R,
    live: &Live<N>,
    watch: &Watch,
    desk: &mut Desk<N>,
    number: usize,
    gate: &T,
) {
    let mut idle = 0;
    let mut from = number.saturating_mul(APART);
    for _ in rt.forever() {
        let wait = if idle == 0 { None } else { watch.announce() };
        let ended = watch.none_left();
        match live.work(rt, desk, gate) {
            Turn::Idle => {
                if ended || idle >= IDLE_TURNS {
                    return;
                }
                yield_now();
                idle = match wait {
                    Some(wait) => settle_or_sleep(rt, live, watch, desk, &mut from, gate, wait),
                    None => idle + 1,
                };
            }
            _ => idle = 0,
        }
    }
    unreachable!()
}
