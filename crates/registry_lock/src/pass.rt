ghost use Rattle.std.specs.Prelude.{◌≡◌};

use std::marker::Model;
use std::sync::ledger::{Ledger, Share};

/// A loader's number, and its part of the ledger of open claims. Contracts see the number and how many claims it has open.
#[derive(Drop)]
pub struct Pass<N: Ledger> {
    pub(crate) number: u32,
    pub(crate) share: Share<N>,
}

impl<N: Ledger> Model for Pass<N> {
    ghost use Rattle.std.specs.Prelude.{◌≡◌};
    ghost use Rattle.registry_lock.specs.Passes.{PassView};

    ghost Value = { PassView };

    ghost view = { λ pass. record { number = pass.number; open_claims = pass.share.amount } };

    ghost invariant = { λ pass. pass.share.parts ≡ 1 };
}

impl<N: Ledger> Pass<N> {
    /// The number of the loader that it is for, from 0.
    pub fn number(&self) -> u32
        ensures { result ≡ self.now.number }
    {
        self.number
    }
}
