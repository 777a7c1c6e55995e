//! What a module of the language means: evaluation of its trees over the images of other modules, and when code stands for trees.
#![tactic(auto)]

pub mod laws;
