ghost use Rattle.std.specs.Prelude.{◌≡◌, ◌<◌, vec_len};
ghost use Rattle.mark_words.specs.Tokens.{log_of};
ghost use Rattle.live_sheet.specs.Accepted.{AreAccepted};
ghost use Rattle.live_sheet.specs.Held.{IsFreeSeat, IsHandIn};

use crate::naming::Naming;
use edit_log::OverSheet;
use mark_words::Seat;
use recalc_workers::Hand;
use std::sync::ledger::Share;

/// The token of one client.
#[derive(Drop)]
pub struct Pass<N: Naming> {
    pub(crate) client: u32,
    pub(crate) seat: Seat<OverSheet>,
    pub(crate) hand: Hand,
    pub(crate) share: Share<N>,
    pub(crate) numbers: Vec<u64>,
    ghost named: { client < N.clients },
    ghost belongs: { IsFreeSeat N.words N.opening seat },
    ghost at: { IsHandIn N.queue N.opening.sizes hand },
    ghost part: { share.parts ≡ 1 },
    ghost amount: { share.amount ≡ vec_len numbers },
    ghost accepted: { AreAccepted client (log_of seat) numbers.items },
}
