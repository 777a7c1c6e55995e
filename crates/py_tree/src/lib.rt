//! What every layer of the loader speaks of: texts, the trees of modules, refusal codes, and a fault, which is a line with a code.
#![tactic(auto)]

pub mod code;
mod copying;
pub mod expression;
pub mod fault;
pub mod integer;
pub mod nesting;
pub mod operator;
pub mod statement;
pub mod text;
