/// What the registry knows of one module.
#[derive(Clone, Copy, Drop, PartialEq, Eq, Debug)]
pub enum Slot {
    /// No loader has it.
    Waiting,
    /// The loader of this number decides it.
    Claimed(u32),
    /// It was decided, and isn't refused.
    Published,
    /// It was decided, and is refused.
    Refused,
    /// Its loader gave up.
    Withdrawn,
}

/// What may happen to a module.
#[derive(Clone, Copy, Drop, PartialEq, Eq, Debug)]
pub enum EventKind {
    Claim,
    Publish,
    Refuse,
    Withdraw,
}

/// What happened to a module, and by which loader.
#[derive(Clone, Copy, Drop, PartialEq, Eq, Debug)]
pub struct Event {
    pub kind: EventKind,
    /// The number of the module, from 0.
    pub module: u32,
    /// The number of the loader.
    pub loader: u32,
}
