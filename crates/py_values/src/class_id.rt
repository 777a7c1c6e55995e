use crate::exception::ExcKind;

/// A class.
#[derive(Clone, Copy, Debug, PartialEq, Eq)]
pub enum ClassId {
    /// The class of that number, from 0, in the text of the module with the number `home`.
    User { home: u32, number: u32 },
    Exc(ExcKind),
}
