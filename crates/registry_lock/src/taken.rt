use registry_core::claim::{Claim, Finished, Halted};
use std::alloc::AllocError;

/// What `take` answers.
pub enum Taken<N> {
    /// A module to decide.
    Claimed(Claim<N>),
    /// Every module is decided.
    AllDecided(Finished<N>),
    /// A claim was withdrawn.
    Stopped(Halted<N>),
    Memory(AllocError),
}
