//! How the bytes of a module are read: as logical lines of tokens; and its physical lines, the marker by which it asks
//! for the strict rules, and which names are identifiers and keywords.
#![tactic(auto)]

pub mod character;
pub mod escape;
mod integer_literal;
pub mod laws;
pub mod lex;
mod lexeme;
pub mod lines;
pub mod marker;
pub mod names;
pub mod piece;
mod spelled;
pub mod string_literal;
pub mod token;
