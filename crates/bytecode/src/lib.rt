//! The code of bodies and functions: its instructions, and what a block of them does, where calls are answered from outside.
#![tactic(auto)]

pub mod instr;
pub mod program;
