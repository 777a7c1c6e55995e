ghost use Rattle.std.specs.Prelude.{◌≡◌, ◌≤◌, All, IfOk};
ghost use Rattle.std.specs.Borrow.{sem};
ghost use Rattle.registry_lock.specs.Passes.{AreFresh};
ghost use Rattle.registry_lock.specs.Lending.{lends_passes};

use crate::pass::Pass;
use std::alloc::{AllocError, Global};
use std::marker::Model;
use std::sync::ledger::{Ledger, Share};

/// The passes of all loaders. By its type these, and what is left, are all parts of the ledger of open claims. Contracts see the list.
#[derive(Drop)]
pub struct Passes<N: Ledger> {
    rows: Vec<Pass<N>>,
    /// The parts that no pass has.
    rest: Share<N>,
}

impl<N: Ledger> Model for Passes<N> {
    ghost use Rattle.std.specs.Prelude.{List};
    ghost use Rattle.registry_lock.specs.Passes.{PassView, HasOtherParts};

    ghost Value = { List PassView };

    ghost view = { λ passes. passes.rows.items };

    ghost invariant = { λ passes. HasOtherParts N.parts passes.rows.items passes.rest.parts passes.rest.amount };
}

impl<N: Ledger> Passes<N> {
    /// A pass for each of so many loaders, out of the whole ledger.
    pub(crate) fn of(alloc: Global, whole: Share<N>, loaders: u32) -> Result<Passes<N>, AllocError>
        requires parts { whole.parts ≡ N.parts }
        requires amount { whole.amount ≡ 0 }
        requires loaders { loaders ≤ N.parts }
        ensures { IfOk result (λ passes. AreFresh loaders passes) }
    {
        let mut rest = whole;
        let mut rows = Vec::with_capacity(alloc, loaders as usize)?;
        for number in 0..loaders {
            let share = rest.split_off(1, 0);
            rows.push_reserved(Pass { number, share });
        }
        Ok(Passes { rows, rest })
    }

    /// The passes, lent as they stand.
    pub fn rows(&mut self) -> &mut [Pass<N>]
        ensures* writes_back { sem 𝓛 (lends_passes N.row N.Ledger self.entry result) }
        ensures value { result.now ≡ self.entry.now }
    {
        self.rows.as_mut_slice()
    }

    /// All parts of the ledger, out of passes with no open claim.
    pub(crate) fn into_whole(self) -> Share<N>
        requires { All (λ pass. pass.open_claims ≡ 0) self }
        ensures parts { result.parts ≡ N.parts }
        ensures amount { result.amount ≡ 0 }
    {
        let Passes { mut rows, rest } = self;
        let mut whole = rest;
        while let Some(pass) = rows.pop() {
            let Pass { number: _, share } = pass;
            whole.merge(share);
        }
        whole
    }
}
