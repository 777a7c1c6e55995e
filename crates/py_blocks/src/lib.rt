//! Blocks: the one module that the forms of its logical lines spell by their indentations.
#![tactic(auto)]

mod builder;
pub mod building;
mod context;
pub mod form_line;
pub mod laws;
mod open_block;
mod placing;
