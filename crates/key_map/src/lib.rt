//! Dictionaries: keys, and lists of keys with their values in the order in which they were put, with a look-up that doesn't scan.
#![tactic(auto)]

mod copying;
mod hashing;
pub mod key;
pub mod map;
mod order;
mod same;
