/// The greatest value of an integer literal, which is that of `int`.
pub const GREATEST_INT: u128 = 9223372036854775807;
