use lists::Items;
use py_tree::text::Text;

/// How a statement binds a name.
#[derive(Clone, Copy, Debug, PartialEq, Eq)]
pub enum BindingKind {
    Import,
    Def,
    Class,
    /// By an assignment, a `for`, an except clause or a parameter.
    Other,
}

/// A name that types and boundaries use and that isn't there when the program runs (Python library reference: typing; the rest is
/// this project's own).
#[derive(Clone, Copy, Debug, PartialEq, Eq)]
pub enum StaticName {
    Optional,
    Any,
    Int64,
    CBool,
    Box,
    Cast,
}

/// A binding of a name.
#[derive(Drop)]
pub struct Binding {
    pub name: Text,
    /// The physical line, from 1, of its statement.
    pub line: u32,
    pub kind: BindingKind,
    /// What it is bound to, where that is a static name.
    pub static_name: Option<StaticName>,
}

/// The bindings of a scope in the order of the text.
pub type Bindings = Items<Binding>;
