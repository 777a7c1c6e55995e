//! The outside of the loader: a folder that is listed and read, and a sink that is written to, as traits that say what
//! they mean and when they fail. Each stands in memory, for tests and for callers that have the bytes, and over the system.
#![tactic(auto)]

pub mod disk_folder;
pub mod folder;
pub mod memory_folder;
pub mod memory_sink;
pub mod rows;
pub mod sink;
pub mod stdout_sink;
