use py_values::class_id::ClassId;

/// A type (Python library reference: typing; that of a place without annotation is `Dynamic`).
#[derive(Clone, Copy, Debug, PartialEq, Eq)]
pub enum PyType {
    /// That of every value that is no primitive.
    Dynamic,
    /// That of ints and bools.
    Int,
    Str,
    Bool,
    Nil,
    List,
    Dict,
    Tuple,
    /// That of the instances of the class and of the classes below it.
    Class(ClassId),
    Optional(OptionalOf),
    /// A number of 64 bits that wraps.
    Int64,
    /// A truth value that is a primitive.
    CBool,
}

/// The type beside None in an optional one.
#[derive(Clone, Copy, Debug, PartialEq, Eq)]
pub enum OptionalOf {
    Int,
    Str,
    Bool,
    List,
    Dict,
    Tuple,
    Class(ClassId),
}
