//! The registry of a folder's modules behind a lock, which loaders beside each other share.
#![tactic(auto)]

pub mod hold;
pub mod pass;
pub mod passes;
pub mod shared;
pub mod taken;
