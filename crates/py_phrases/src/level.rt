/// How loose a phrase binds: a lower level may stand wherever a higher one may.
pub type Level = u8;

/// A primary with signs before it.
pub const SIGN: Level = 1;

pub const PRODUCT: Level = 2;

pub const SUM: Level = 3;

pub const COMPARISON: Level = 4;

pub const NEGATION: Level = 5;

pub const CONJUNCTION: Level = 6;

pub const DISJUNCTION: Level = 7;

pub const EXPRESSION: Level = 8;
/// Above all phrases: what a closing bracket ends.
pub const BRACKET: Level = 9;
