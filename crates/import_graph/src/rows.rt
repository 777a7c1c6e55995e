use lists::Items;

/// An import that names a module of the folder.
#[derive(Clone, Copy, Drop)]
pub struct DirectImport {
    /// The physical line, from 1, of the import statement.
    pub line: u32,
    /// The number of the module, from 0.
    pub module: u32,
}

/// What one module imports, in the order of the text.
pub type GraphRow = Items<DirectImport>;

/// The rows of all modules, by their numbers.
pub type GraphRows = Items<GraphRow>;
