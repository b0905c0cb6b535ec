ghost use Rattle.std.specs.Prelude.{◌≡◌, ◌≤◌, ◌+◌, [], length, All, vec_capacity, Contains};
ghost use Rattle.live_sheet.specs.Closed.{IsPassIn, accepted_count};
ghost use Rattle.live_sheet.specs.Held.{IsFreeSeat};

use crate::naming::Naming;
use crate::pass::Pass;
use edit_log::OverSheet;
use mark_words::Seat;
use std::sync::ledger::Share;

/// Takes passes apart: their shares go into one, and their seats into a list that has room for them.
pub(crate) fn gather<N: Naming>(
    share: &mut Share<N>,
    passes: Vec<Pass<N>>,
    seats: &mut Vec<Seat<OverSheet>>,
)
    requires none { seats.old.items ≡ [] }
    requires room { length passes.items ≤ vec_capacity seats.old }
    ensures parts { share.new.parts ≡ share.old.parts + length passes.items }
    ensures amount { share.new.amount ≡ share.old.amount + accepted_count passes.items }
    ensures kept { All (IsPassIn N.words N.opening) passes.items }
    ensures handed { All (λ pass. Contains seats.new.items pass.seat) passes.items }
    ensures tables { All (IsFreeSeat N.words N.opening) seats.new.items }
{
    let mut passes = passes;
    while let Some(pass) = passes.pop() {
        let Pass {
            client: _,
            seat,
            hand: _,
            share: own,
            numbers: _,
        } = pass;
        share.merge(own);
        seats.push_reserved(seat);
    }
}
