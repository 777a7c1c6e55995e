//! Phrases: the expressions and targets at the front of tokens, and their trees.
#![tactic(auto)]

mod build;
mod call;
pub mod laws;
mod level;
mod machine;
mod nesting;
mod operand;
mod operator;
pub mod phrase;
mod reader;
mod targets;
