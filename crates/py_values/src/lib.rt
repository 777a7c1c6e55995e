//! The values that programs compute with: ints, exception classes, names of classes, references to objects, and kinds of values.
#![tactic(auto)]

pub mod builtin;
pub mod class_id;
pub mod exception;
pub mod int;
pub mod kind;
pub mod value;
