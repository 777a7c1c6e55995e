/// The values of `int`: from -2^63 to 2^63 - 1.
pub type PyInt = i64;
