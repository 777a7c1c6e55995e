//! The rows of the operator table that ask for no object: arithmetic, comparisons and truth values of ints, texts and primitives,
//! what builtins give of them, and the search for a part in a text.
#![tactic(auto)]

pub mod arithmetic;
pub mod atom;
pub mod builtin;
mod floored;
pub mod laws;
pub mod read_int;
pub mod search;
pub mod text;
