use crate::class::ClassKind;
use lists::Items;
use py_tree::text::Text;

/// What a module's names are resolved against: its own name and number, and what its imports bind.
#[derive(Drop)]
pub struct Outer {
    pub name: Text,
    /// The number of the module, from 0.
    pub number: u32,
    pub bindings: OuterBindings,
}

/// What the imports of a module bind.
pub type OuterBindings = Items<OuterBinding>;

/// A name that an import binds.
#[derive(Drop)]
pub struct OuterBinding {
    pub name: Text,
    pub kind: OuterKind,
}

/// What an import binds a name to.
#[derive(Drop)]
pub enum OuterKind {
    Class(ClassKind),
    Module(ModuleClasses),
    Other,
}

/// The globals of a module that hold classes.
pub type ModuleClasses = Items<ModuleClass>;

/// A global that holds a class.
#[derive(Drop)]
pub struct ModuleClass {
    pub name: Text,
    pub class: ClassKind,
}
