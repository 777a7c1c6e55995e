ghost use Rattle.std.specs.Prelude.{◌≡◌};
ghost use Rattle.py_values.specs.Kinds.{kind_of};

use crate::class_id::ClassId;
use crate::value::Value;

/// What types and operators tell values apart by.
#[derive(Clone, Copy, Debug, PartialEq, Eq)]
pub enum ValueKind {
    Nil,
    Bool,
    Int,
    Prim64,
    PrimBool,
    Str,
    Tuple,
    Range,
    Bound,
    Class,
    Function,
    Module,
    Builtin,
    Host,
    /// A list, a dictionary or an instance: which one, its place tells.
    Object,
    List,
    Dict,
    Instance(ClassId),
    /// A list whose items are of that type.
    CheckedList(Elem),
    /// A dictionary whose keys are of the first type, and its values of the second.
    CheckedDict(Elem, Elem),
}

/// The types of the items of checked lists and dictionaries.
#[derive(Clone, Copy, Debug, PartialEq, Eq)]
pub enum Elem {
    Int,
    Str,
    Bool,
    Class(ClassId),
    /// An `int` or `None`.
    OptInt,
    OptStr,
    OptBool,
    OptClass(ClassId),
}

/// The kind of a value. Takes no memory.
pub fn kind(value: Value) -> ValueKind
    ensures kind { result ≡ kind_of value }
{
    match value {
        Value::Nil => ValueKind::Nil,
        Value::Bool(_) => ValueKind::Bool,
        Value::Int(_) => ValueKind::Int,
        Value::Prim64(_) => ValueKind::Prim64,
        Value::PrimBool(_) => ValueKind::PrimBool,
        Value::Str(_) => ValueKind::Str,
        Value::Tuple(_) => ValueKind::Tuple,
        Value::Bound(_) => ValueKind::Bound,
        Value::Range(_) => ValueKind::Range,
        Value::Obj(_) => ValueKind::Object,
        Value::Class(_) => ValueKind::Class,
        Value::Function { .. } => ValueKind::Function,
        Value::Module(_) => ValueKind::Module,
        Value::Builtin(_) => ValueKind::Builtin,
        Value::Host { .. } => ValueKind::Host,
    }
}
