//! The code of a module's body and of its functions, which does what their trees mean.
#![tactic(auto)]

mod assigns;
mod block;
pub mod compile;
mod defs;
mod ends;
mod exprs;
mod functions;
mod imports;
pub mod laws;
mod locals;
mod module_names;
mod name_places;
mod row_ends;
mod scope;
mod site;
mod stmts;
pub mod targets;
