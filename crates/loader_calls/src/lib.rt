//! Public calls of loaders beside each other, with their answers compared. It has tests alone, so that each layer is proved once.
#![tactic(auto)]

#[cfg(test)]
mod flags;
#[cfg(test)]
mod held_gate;
#[cfg(test)]
mod loaders;
#[cfg(test)]
mod runs;
#[cfg(test)]
mod shared;
