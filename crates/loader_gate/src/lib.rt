//! Loaders beside each other, which decide the modules of a folder over one registry, and the gate that each passes with a claim.
#![tactic(auto)]

pub mod gate;
pub mod loader;
pub mod loading;
