//! Public calls of the layers on their happy paths, with their answers compared. It has tests alone, so that each layer is proved once.
#![tactic(auto)]

#[cfg(test)]
mod atoms;
#[cfg(test)]
mod classes;
#[cfg(test)]
mod disk_folder;
#[cfg(test)]
mod elements;
#[cfg(test)]
mod folders;
#[cfg(test)]
mod globals;
#[cfg(test)]
mod graph;
#[cfg(test)]
mod imports;
#[cfg(test)]
mod keys;
#[cfg(test)]
mod lexer;
#[cfg(test)]
mod memory_folder;
#[cfg(test)]
mod operators;
#[cfg(test)]
mod phrases;
#[cfg(test)]
mod registry;
#[cfg(test)]
mod run;
#[cfg(test)]
mod segment;
#[cfg(test)]
mod sinks;
#[cfg(test)]
mod texts;
#[cfg(test)]
mod trees;
#[cfg(test)]
mod values;
#[cfg(test)]
mod verdicts;
