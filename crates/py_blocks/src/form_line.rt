use lists::Items;
use py_expr::form::Form;
use sqlite_items::Boxed;

/// The forms of a module, in the order of the text.
pub type FormLines = Items<FormLine>;

/// The form of a logical line, with where the line begins.
#[derive(Drop)]
pub struct FormLine {
    /// The number of spaces before it.
    pub indent: u32,
    /// Its first physical line, from 1.
    pub line: u32,
    pub form: Boxed<Form>,
}
