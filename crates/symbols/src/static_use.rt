use crate::binding::StaticName;
use lists::Items;

/// A use of a static name.
#[derive(Clone, Copy, Debug, PartialEq, Eq)]
pub struct StaticUse {
    /// The physical line, from 1, at which a fault in it is reported.
    pub line: u32,
    pub name: StaticName,
}

/// The uses of a module's static names.
pub type StaticUses = Items<StaticUse>;
