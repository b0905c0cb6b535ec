ghost use Rattle.std.specs.Prelude.{◌≡◌, length};
ghost use Rattle.std.specs.Thread.{IsSend, IsSync};
ghost use Rattle.std.specs.Fork.{AcceptsAt, AcceptsEach, ChangesEach};
ghost use Rattle.recalc_workers.specs.Sides.{ChangesAll, LeavesAt};

use std::thread::{Threads, join_mut};

/// Calls f with a place of a list and what stands there.
fn at_one<T, F: Fn(usize, &mut T)>(f: &F, place: usize, it: &mut T)
    requires { AcceptsAt F.Fn f.now place it.old }
    ensures { LeavesAt F.Fn f.now place it.old it.new }
{
    f(place, it);
}

/// Calls f with each place of a list and what stands there, each in a thread of its own: the last one, which has this
/// place, and the others.
#[cycle(threads)]
fn start_last<R: Threads + Sync, T: Send, F: Fn(usize, &mut T) + Sync>(
    rt: &R,
    f: &F,
    place: usize,
    last: &mut T,
    others: &mut [T],
)
    requires last { AcceptsAt F.Fn f.now place last.old }
    requires others { AcceptsEach F.Fn f.now others.old }
    ensures last { LeavesAt F.Fn f.now place last.old last.new }
    ensures others { ChangesAll F.Fn f.now others.old others.new }
{
    let mut own = ||
        requires { AcceptsAt F.Fn f.now place last.now }
        ensures { LeavesAt F.Fn f.entry.now place last.entry.now last.exit.now }
    { at_one(f, place, last) };
    let mut before = ||
        requires { IsSync R.row × IsSync F.row × IsSend T.row × AcceptsEach F.Fn f.now others.now }
        ensures { ChangesAll F.Fn f.entry.now others.entry.now others.exit.now }
    { start_all(rt, f, others) };
    join_mut(rt, &mut own, &mut before);
}

/// Calls f with each place of the list and what stands there, each in a thread of its own, and waits for all.
#[cycle(threads)]
fn start_all<R: Threads + Sync, T: Send, F: Fn(usize, &mut T) + Sync>(rt: &R, f: &F, list: &mut [T])
    requires { AcceptsEach F.Fn f.now list.old }
    ensures { ChangesAll F.Fn f.now list.old list.new }
{
    if let Some((last, others)) = list.split_last_mut() {
        start_last(rt, f, others.len(), last, others);
    }
}

/// Calls f with each place of the list and what stands there, side by side.
///
/// It differs from the kit's `for_each_mut` in who works where. Each call has a new thread, all of which are started
/// by this one, one after the other; it makes no call itself and waits. A new thread may be given the processor of the
/// one that starts it, and where that one goes on working the two share it for some milliseconds, while others are
/// idle. The call of a list of one is made in this thread.
pub(crate) fn side_by_side<R: Threads + Sync, T: Send, F: Fn(usize, &mut T) + Sync>(
    rt: &R,
    f: &F,
    list: &mut [T],
)
    requires { AcceptsEach F.Fn f.now list.old }
    ensures count { length list.new ≡ length list.old }
    ensures each { ChangesEach F.Fn f.now list.old list.new }
{
    if list.len() == 1 {
        at_one(f, 0, &mut list[0]);
        return;
    }
    start_all(rt, f, list);
}
