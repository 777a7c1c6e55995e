//! The types of the language, what is known of a module beside its tree, and, as plain data, what an evaluation goes over: values, objects,
//! states and images.
#![tactic(auto)]

pub mod facts;
pub mod py_type;
