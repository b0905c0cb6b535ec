use crate::naming::Naming;
use std::marker::Model;
use std::sync::ledger::Share;

/// The one share of the ledger that no client has. Its amount is 0. By it the ledger is known to have one part more
/// than there are clients.
#[derive(Drop)]
pub(crate) struct Rest<N: Naming> {
    share: Share<N>,
}

impl<N: Naming> Model for Rest<N> {
    ghost use Rattle.std.specs.Prelude.{◌≡◌, ◌+◌, ℕ};
    ghost use Rattle.live_sheet.specs.Shares.{IsRest};

    ghost Value = { ℕ };

    ghost view = { λ r. r.share.amount };

    ghost invariant = { λ r. IsRest N.clients N.parts r.share.parts r.share.amount };
}

impl<N: Naming> Rest<N> {
    ghost use Rattle.std.specs.Prelude.{◌≡◌, ◌+◌};

    /// What is left of the shares when each client has its own.
    pub(crate) fn new(share: Share<N>) -> Rest<N>
        requires parts { share.parts ≡ 1 }
        requires amount { share.amount ≡ 0 }
        requires all { N.parts ≡ N.clients + 1 }
    {
        Rest { share }
    }

    /// The share.
    pub(crate) fn share(self) -> Share<N>
        ensures parts { result.parts ≡ 1 }
        ensures amount { result.amount ≡ 0 }
        ensures all { N.parts ≡ N.clients + 1 }
    {
        let Rest { share } = self;
        share
    }
}
