//! From the files of a folder to the verdicts of its modules: what each file is by itself, which modules import which, and what is decided
//! of a module from what is decided of those that it imports.
#![tactic(auto)]

mod body;
pub mod deciding;
pub mod folder;
pub mod globals;
mod import_faults;
pub mod known;
pub mod laws;
mod name_places;
mod needed;
mod outer;
pub mod preparing;
pub mod source;
pub mod strict_python;
mod top_part;
pub mod verdict;
