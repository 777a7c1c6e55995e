ghost use Rattle.std.specs.Prelude.{◌≡◌, ◌++◌, IfOk, OnOk, map};
ghost use Rattle.std.specs.List.{flat_map};
ghost use Rattle.py_tree.specs.Joined.{class_of, kind_of, param_of, statement_of};
ghost use Rattle.symbols.specs.Faults as faults;
ghost use Rattle.symbols.specs.Functions as spec;
ghost use Rattle.symbols.specs.Located.{located};
ghost use Rattle.symbols.specs.Views.{seen};

use crate::names::Names;
use crate::scope::scope_of;
use crate::special_lines::{Lines, put_line};
use py_tree::expression::Param;
use py_tree::statement::{ClassDef, Function, Stmt, StmtKind};
use std::alloc::{AllocError, Global};

/// A function with the physical line, from 1, of its statement.
#[derive(Clone, Copy)]
pub(crate) struct FunctionAt<'a> {
    pub line: u32,
    pub function: &'a Function,
}

/// The functions of a module: its defs, and where a class stands the class's methods.
pub(crate) fn functions_of<'a>(
    alloc: Global,
    scope: &[&'a Stmt],
) -> Result<Vec<FunctionAt<'a>>, AllocError>
    ensures { IfOk result (λ all. located all.items ≡ flat_map spec.functions_of (seen scope.now)) }
{
    let mut all = Vec::new(alloc);
    for statement in scope {
        put_functions(alloc, *statement, &mut all)?;
    }
    Ok(all)
}

fn put_functions<'a>(
    alloc: Global,
    statement: &'a Stmt,
    all: &mut Vec<FunctionAt<'a>>,
) -> Result<(), AllocError>
    ensures { OnOk result (located all.new.items ≡ located all.old.items ++ spec.functions_of (statement_of statement.now)) }
{
    match &statement.kind {
        StmtKind::Class(class) => put_methods(alloc, class.get(), all),
        _ => put_def(statement, all),
    }
}

fn put_methods<'a>(
    alloc: Global,
    class: &'a ClassDef,
    all: &mut Vec<FunctionAt<'a>>,
) -> Result<(), AllocError>
    ensures { OnOk result (located all.new.items ≡ located all.old.items ++ spec.methods_in (class_of class.now)) }
{
    let scope = scope_of(alloc, class.body.as_slice())?;
    put_defs(scope.as_slice(), all)
}

fn put_defs<'a>(scope: &[&'a Stmt], all: &mut Vec<FunctionAt<'a>>) -> Result<(), AllocError>
    ensures { OnOk result (located all.new.items ≡ located all.old.items ++ flat_map spec.def_of (seen scope.now)) }
{
    for statement in scope {
        put_def(*statement, all)?;
    }
    Ok(())
}

fn put_def<'a>(statement: &'a Stmt, all: &mut Vec<FunctionAt<'a>>) -> Result<(), AllocError>
    ensures { OnOk result (located all.new.items ≡ located all.old.items ++ spec.def_of (statement_of statement.now)) }
{
    match &statement.kind {
        StmtKind::Def(function) => {
            all.push(FunctionAt {
                line: statement.line,
                function: function.get(),
            })?;
            Ok(())
        }
        _ => Ok(()),
    }
}

/// The lines of the functions that have two parameters of one name.
pub(crate) fn repeated_params(
    alloc: Global,
    functions: &[FunctionAt<'_>],
) -> Result<Lines, AllocError>
    ensures { IfOk result (λ lines. lines ≡ faults.repeated_params (located functions.now)) }
{
    let mut lines = Lines::new(alloc);
    for known in functions {
        let is_fault = repeats(alloc, known.function.params.as_slice())?;
        put_line(known.line, is_fault, &mut lines)?;
    }
    Ok(lines)
}

/// Whether two parameters have one name.
#[tactic(auto, using(crate::proofs::Sets::with_names_first))]
fn repeats(alloc: Global, params: &[Param]) -> Result<bool, AllocError>
    ensures { IfOk result (λ is_so. is_so ≡ faults.repeats (map param_of params.now)) }
{
    let mut names = Names::new(alloc);
    for param in params {
        names.add(&param.name)?;
    }
    Ok(names.len() < params.len())
}
