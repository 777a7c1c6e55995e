ghost use Rattle.std.specs.Prelude.{◌≡◌};

use std::alloc::AllocError;
use std::marker::PhantomData;

/// A module that a loader has to decide. It is made by `claim` alone, and has to be spent: it can't be let go.
pub struct Claim<N> {
    /// The number of the module, from 0.
    pub module: u32,
    /// The number of the loader.
    pub loader: u32,
    of: PhantomData<N>,
}

impl<N> Claim<N> {
    pub(crate) fn make(module: u32, loader: u32) -> Claim<N>
        ensures number { result.module ≡ «module» }
        ensures loader { result.loader ≡ loader }
    {
        Claim {
            module,
            loader,
            of: PhantomData,
        }
    }

    pub(crate) fn spend(self) -> (u32, u32)
        ensures number { result.0 ≡ self.module }
        ensures loader { result.1 ≡ self.loader }
    {
        let Claim {
            module,
            loader,
            of: _,
        } = self;
        (module, loader)
    }
}

/// Every module is decided, and stays so. It is made by `claim` alone.
#[derive(Drop)]
pub struct Finished<N> {
    of: PhantomData<N>,
}

impl<N> Finished<N> {
    pub(crate) fn make() -> Finished<N> {
        Finished { of: PhantomData }
    }
}

/// A claim was withdrawn, so nothing can be claimed any more. It is made by `claim` alone.
#[derive(Drop)]
pub struct Halted<N> {
    of: PhantomData<N>,
}

impl<N> Halted<N> {
    pub(crate) fn make() -> Halted<N> {
        Halted { of: PhantomData }
    }
}

/// What `claim` answers.
pub enum ClaimAnswer<N> {
    /// A module to decide.
    Claimed(Claim<N>),
    /// Every module is decided.
    AllDecided(Finished<N>),
    /// A claim was withdrawn.
    Stopped(Halted<N>),
    /// What can be claimed waits for modules that are claimed.
    NoneReady,
    Memory(AllocError),
}
