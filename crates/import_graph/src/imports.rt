ghost use Rattle.std.specs.Prelude.{◌≡◌, [], ◌∷◌, true, false, IfOk, MatchOption, map};
ghost use Rattle.std.specs.List.{flat_map};
ghost use Rattle.py_tree.specs.Joined.{module_of, statements_of, statement_of, kind_of};
ghost use Rattle.py_tree.specs.TopPart.{behind_docstring, imports_at_front, is_import};
ghost use Rattle.py_tree.specs.declared.statement.Import.{Import as Imported};
ghost use Rattle.import_graph.specs.declared.imports.ImportRow.{ImportRow as Row};
ghost use Rattle.import_graph.specs.Imports.{import_rows, rows_of};

use lists::Items;
use py_tree::expression::{Expr, Texts};
use py_tree::statement::{Import, Module, Stmt, StmtKind};
use py_tree::text::Text;
use std::alloc::{AllocError, Global};

/// A module that an import statement names.
#[derive(Drop)]
pub struct ImportRow {
    /// The physical line, from 1, of the statement.
    pub line: u32,
    pub module: Text,
    /// The names that a `from` takes from the module.
    pub names: Texts,
}

/// What a module's top part imports, in the order of the text.
pub type ImportRows = Items<ImportRow>;

/// The modules that the import statements of the top part name.
pub fn imports_of(alloc: Global, module: &Module) -> Result<ImportRows, AllocError>
    ensures { IfOk result (λ rows. rows ≡ import_rows (module_of module.now)) }
{
    rows_at_front(alloc, behind_docstring(module.body.as_slice()))
}

/// What stands behind a docstring, and all where there is none.
fn behind_docstring(body: &[Stmt]) -> &[Stmt]
    ensures { statements_of result.now ≡ behind_docstring (statements_of body.now) }
{
    match body {
        [
            Stmt {
                kind: StmtKind::Eval(Expr::Str(_)),
                ..
            },
            rest @ ..,
        ] => rest,
        body => body,
    }
}

/// What the import statements at the front name.
fn rows_at_front(alloc: Global, body: &[Stmt]) -> Result<ImportRows, AllocError>
    ensures { IfOk result (λ rows. rows ≡ flat_map rows_of (imports_at_front (statements_of body.now))) }
{
    let mut rows = Items::new(alloc);
    for statement in body {
        match statement_rows(alloc, statement)? {
            Some(named) => rows.append(named)?,
            None => return Ok(rows),
        }
    }
    Ok(rows)
}

/// What a statement names, where it is an import.
fn statement_rows(alloc: Global, statement: &Stmt) -> Result<Option<ImportRows>, AllocError>
    ensures { IfOk result (λ found. MatchOption found
        (is_import (kind_of statement.now.kind) ≡ false)
        (λ rows. (is_import (kind_of statement.now.kind) ≡ true) × (rows ≡ rows_of (statement_of statement.now)))) }
{
    match &statement.kind {
        StmtKind::Import(names) => {
            Ok(Some(module_rows(alloc, statement.line, names.as_slice())?))
        }
        StmtKind::From { module, names } => {
            let mut rows = Items::new(alloc);
            rows.push(ImportRow {
                line: statement.line,
                module: module.copy(alloc)?,
                names: taken_names(alloc, names.as_slice())?,
            })?;
            Ok(Some(rows))
        }
        _ => Ok(None),
    }
}

/// A row for each module of an `import`.
fn module_rows(alloc: Global, line: u32, names: &[Import]) -> Result<ImportRows, AllocError>
    ensures { IfOk result (λ rows. rows ≡
        map (λ (i : Imported). record { line = line; «module» = i.name; names = [] }) names.now) }
{
    let mut rows = Items::new(alloc);
    for import in names {
        rows.push(ImportRow {
            line,
            module: import.name.copy(alloc)?,
            names: Items::new(alloc),
        })?;
    }
    Ok(rows)
}

/// The names that a `from` takes.
fn taken_names(alloc: Global, names: &[Import]) -> Result<Texts, AllocError>
    ensures { IfOk result (λ taken. taken ≡ map (λ (i : Imported). i.name) names.now) }
{
    let mut taken = Items::new(alloc);
    for import in names {
        taken.push(import.name.copy(alloc)?)?;
    }
    Ok(taken)
}
