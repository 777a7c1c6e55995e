use import_graph::imports::{ImportRows, imports_of};
use lists::{ElementAt, Items};
use py_tree::expression::Expr;
use py_tree::statement::{Import, Module, Stmt, StmtKind};
use py_tree::text::Text;
use std::alloc::{AllocError, AllocGlobal, Global};
use std::process::Abort;
use std::test::Fail;

fn import(alloc: Global, name: &str, alias: Option<&str>) -> Result<Import, AllocError> {
    Ok(Import {
        name: Text::from_str(alloc, name)?,
        alias: match alias {
            Some(alias) => Some(Text::from_str(alloc, alias)?),
            None => None,
        },
    })
}

fn push(
    alloc: Global,
    body: &mut Items<Stmt>,
    line: u32,
    kind: StmtKind,
) -> Result<(), AllocError> {
    body.push(Stmt { line, kind })
}

/// A docstring, three import statements, `pass`, and an import below.
fn sample(alloc: Global) -> Result<Module, AllocError> {
    let mut body = Items::new(alloc);
    let text = Text::from_str(alloc, "What it is for.")?;
    push(alloc, &mut body, 1, StmtKind::Eval(Expr::Str(text)))?;
    let mut marker = Items::new(alloc);
    marker.push(import(alloc, "__strict__", None)?)?;
    push(alloc, &mut body, 2, StmtKind::Import(marker))?;
    let mut modules = Items::new(alloc);
    modules.push(import(alloc, "colors", None)?)?;
    modules.push(import(alloc, "shapes", Some("s"))?)?;
    push(alloc, &mut body, 3, StmtKind::Import(modules))?;
    let mut names = Items::new(alloc);
    names.push(import(alloc, "ITEMS", Some("all"))?)?;
    names.push(import(alloc, "total", None)?)?;
    let module = Text::from_str(alloc, "stock")?;
    push(alloc, &mut body, 5, StmtKind::From { module, names })?;
    push(alloc, &mut body, 6, StmtKind::Pass)?;
    let mut late = Items::new(alloc);
    late.push(import(alloc, "late", None)?)?;
    push(alloc, &mut body, 7, StmtKind::Import(late))?;
    Ok(Module { body })
}

/// Compares the rows of the sample.
fn assert_rows(
    rt: &(impl Abort + AllocGlobal),
    alloc: Global,
    rows: &ImportRows,
) -> Result<(), AllocError> {
    assert_eq!(rt; rows.len(), 4);
    for (row, (line, module)) in rows.as_slice().iter().zip([
        (2, "__strict__"),
        (3, "colors"),
        (3, "shapes"),
        (5, "stock"),
    ]) {
        assert_eq!(rt; row.line, line);
        assert!(rt;
            row.module.same(&Text::from_str(alloc, module)?),
            "{module}"
        );
    }
    assert!(rt; rows.as_slice()[..3].iter().all(|row| row.names.is_empty()));
    let names = &rows.at(3).names;
    assert_eq!(rt; names.len(), 2);
    assert!(rt; names.at(0).same(&Text::from_str(alloc, "ITEMS")?));
    assert!(rt; names.at(1).same(&Text::from_str(alloc, "total")?));
    Ok(())
}

#[test]
fn lists_the_modules_that_the_top_part_names(rt: HostRuntime) -> Result<(), Fail> {
    let alloc = rt.alloc();
    let rows = imports_of(alloc, &sample(alloc)?)?;
    assert_rows(&rt, alloc, &rows)?;
    Ok(())
}
