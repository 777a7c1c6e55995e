//! Names: which binding each name of a module has, the classes with their slots and methods, the functions with their locals.
#![tactic(auto)]

mod bases;
pub mod binding;
pub mod bindings;
pub mod bound_names;
pub mod class;
mod class_faults;
pub mod class_list;
mod class_order;
mod class_reading;
mod class_table;
mod classes;
mod context;
pub mod first_fault;
mod functions;
mod imported;
pub mod imports;
mod kinds;
mod lineage;
mod module_uses;
pub mod name_map;
pub mod names;
pub mod outer;
mod parts;
mod repeats;
pub mod resolve;
pub mod resolved;
pub mod scope;
pub mod special;
mod special_lines;
mod special_parts;
pub mod static_use;
mod tally;
mod uses;
pub mod words;
