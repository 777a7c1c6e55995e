//! The import graph of a folder's modules: what each names, reaches and needs, which are cyclic, and that one assignment of verdicts fits them all.
#![tactic(auto)]

pub mod graph;
pub mod imports;
pub mod laws;
mod links;
mod reach;
pub mod rows;
mod sets;
