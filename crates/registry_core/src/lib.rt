//! The registry of a folder's modules: which are claimed by whom, which are decided, and by which verdicts, over any way to load a module.
#![tactic(auto)]

pub mod claim;
pub mod imports;
pub mod laws;
pub mod loads;
pub mod naming;
pub mod registry;
pub mod slot;
mod slots;
pub mod sources;
pub mod world;
