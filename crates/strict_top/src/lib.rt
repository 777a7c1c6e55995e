//! The top call of the loader: from the words after a program's name and a folder to the report on its modules.
#![tactic(auto)]

mod alone;
mod beside;
pub mod modules;
mod reading;
mod report;
pub mod run;
pub mod status;
mod words;
