use crate::py_type::PyType;
use lists::Items;
use py_tree::expression::Texts;
use py_tree::text::Text;
use py_values::class_id::ClassId;

/// What is known of a module beside its tree.
#[derive(Drop)]
pub struct Facts {
    pub name: Text,
    /// Its top part has `import __static__`.
    pub is_static: bool,
    /// Of its functions by their numbers, from 0, in the order of the text: its defs, and where a class stands the class's methods.
    pub signatures: Items<Signature>,
    /// Its classes by their numbers, from 0, in the order of the text.
    pub classes: Items<ClassFacts>,
    /// Its annotated globals.
    pub typed: Items<TypedGlobal>,
    /// The names that it imports from the host, by the numbers of its host slots, from 0.
    pub hosts: Texts,
}

/// What a function takes and gives.
#[derive(Drop)]
pub struct Signature {
    pub params: Items<Parameter>,
    pub result: PyType,
}

/// A parameter of a function.
#[derive(Drop)]
pub struct Parameter {
    pub name: Text,
    pub kind: PyType,
    pub has_default: bool,
}

/// A class of a module.
#[derive(Drop)]
pub struct ClassFacts {
    pub name: Text,
    /// The class itself, the one that it is directly below, and so on to the last.
    pub line: Items<ClassId>,
    /// Those of its base first.
    pub slots: Items<Slot>,
    /// Its own.
    pub methods: Items<Method>,
}

/// A slot of a class.
#[derive(Drop)]
pub struct Slot {
    pub name: Text,
    pub kind: PyType,
}

/// A method of a class.
#[derive(Drop)]
pub struct Method {
    pub name: Text,
    /// The number of its function in its module.
    pub function: u32,
}

/// A global with an annotation.
#[derive(Drop)]
pub struct TypedGlobal {
    pub name: Text,
    pub kind: PyType,
}
