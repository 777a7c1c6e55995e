use crate::builtin::Builtin;
use crate::class_id::ClassId;
use crate::int::PyInt;

/// Where an object was made.
#[derive(Clone, Copy, Debug, PartialEq, Eq)]
pub enum Home {
    /// By the body of the module of that number, from 0 in the order of the folder's modules.
    Module(u32),
    /// By the host file.
    Host,
    /// By an entry call.
    Run,
}

/// The place of an object among those of its home.
#[derive(Clone, Copy, Debug, PartialEq, Eq)]
pub struct Ref {
    pub home: Home,
    /// From 0.
    pub place: usize,
}

/// A value (Python reference: objects, values and types). What stands at a place isn't part of it.
#[derive(Clone, Copy, Debug, PartialEq, Eq)]
pub enum Value {
    /// The constant `None`.
    Nil,
    Bool(bool),
    Int(PyInt),
    /// A primitive `int64`.
    Prim64(i64),
    /// A primitive `cbool`.
    PrimBool(bool),
    Str(Ref),
    Tuple(Ref),
    /// A bound method.
    Bound(Ref),
    Range(Ref),
    /// A list, a dictionary or an instance.
    Obj(Ref),
    Class(ClassId),
    /// The function of that number, from 0, in the text of the module with the number `home`.
    Function { home: u32, number: u32 },
    /// The module of that number.
    Module(u32),
    Builtin(Builtin),
    /// The value of the host name with the number `slot` among those that the module with the number `home` imports.
    Host { home: u32, slot: u32 },
}
