//! The objects that a run makes: a segment keeps those of one home, in the order in which they were made, with the globals and the
//! default values of that home; and the rules that say what a run may do.
#![tactic(auto)]

pub mod defaults;
pub mod globals;
pub mod object;
pub mod rules;
pub mod segment;
