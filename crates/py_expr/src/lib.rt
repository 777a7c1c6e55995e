//! The line grammar: the one form that the tokens of a logical line spell.
#![tactic(auto)]

mod annotated;
mod assigned;
mod bases;
mod expressions;
mod for_names;
pub mod form;
mod found;
mod front;
mod head;
mod head_definitions;
mod head_made;
mod imports;
pub mod laws;
pub mod line;
mod made;
mod parameters;
mod simple;
mod whole;
mod worded;
