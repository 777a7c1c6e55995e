ghost use Rattle.std.specs.Prelude.{◌≡◌, ◌++◌, [], IfOk, OnOk, map};
ghost use Rattle.std.specs.List.{flat_map};
ghost use Rattle.py_tree.specs.Joined.{branches_of, class_of, clauses_of, function_of, kind_of, param_of, statement_of, statements_of};
ghost use Rattle.symbols.specs.Bindings as scope;
ghost use Rattle.symbols.specs.Contexts.{context_of};
ghost use Rattle.symbols.specs.SpecialNames as spec;
ghost use Rattle.symbols.specs.SpecialNames.{at, body_lines, branch_lines, clause_lines, in_function_body, member_lines, module_lines, own_lines, part_lines, scope_lines, within_class, within_lines};
ghost use Rattle.symbols.specs.Views.{seen};

use crate::binding::Binding;
use crate::bindings::bindings_of;
use crate::bound_names::locals_of;
use crate::context::{Context, Use};
use crate::scope::scope_of;
use crate::special::{is_any_faulty, is_faulty, is_value_faulty};
use crate::special_parts::{
    is_faulty_bind, is_faulty_field, is_faulty_signature, is_faulty_statement,
};
use lists::Items;
use py_tree::expression::Param;
use py_tree::statement::{Branch, ClassDef, Clause, Function, Stmt, StmtKind};
use std::alloc::{AllocError, Global};

/// Physical lines, from 1.
pub(crate) type Lines = Items<u32>;

/// The lines of names in a module that stand where they may not.
pub(crate) fn special_lines(
    alloc: Global,
    scope: &[&Stmt],
    context: &Context<'_>,
) -> Result<Lines, AllocError>
    ensures { IfOk result (λ lines. lines ≡ flat_map (module_lines (context_of context.now)) (seen scope.now)) }
{
    let mut lines = Lines::new(alloc);
    for statement in scope {
        put_own(statement, context, &mut lines)?;
        put_within(alloc, &statement.kind, context, &mut lines)?;
    }
    Ok(lines)
}

/// Puts the line, where there is a fault.
pub(crate) fn put_line(line: u32, is_fault: bool, lines: &mut Lines) -> Result<(), AllocError>
    ensures { OnOk result (lines.new ≡ lines.old ++ at line is_fault) }
{
    if is_fault { lines.push(line) } else { Ok(()) }
}

/// Puts the lines of the faults in a statement without its blocks.
fn put_own(statement: &Stmt, context: &Context<'_>, lines: &mut Lines) -> Result<(), AllocError>
    ensures { OnOk result (lines.new ≡ lines.old ++ own_lines (context_of context.now) (statement_of statement.now)) }
{
    put_line(
        statement.line,
        is_faulty_statement(&statement.kind, context),
        lines,
    )?;
    put_parts(&statement.kind, statement.line, context, lines)
}

/// Those of the conditions of an `if` and of the clauses of a `try`.
fn put_parts(
    kind: &StmtKind,
    line: u32,
    context: &Context<'_>,
    lines: &mut Lines,
) -> Result<(), AllocError>
    ensures { OnOk result (lines.new ≡ lines.old ++ part_lines (context_of context.now) line (kind_of kind.now)) }
{
    match kind {
        StmtKind::If { branches, .. } => put_branches(branches.as_slice(), context, lines),
        StmtKind::Try(_, clauses) => put_clauses(clauses.as_slice(), line, context, lines),
        _ => Ok(()),
    }
}

fn put_branches(
    branches: &[Branch],
    context: &Context<'_>,
    lines: &mut Lines,
) -> Result<(), AllocError>
    ensures { OnOk result (lines.new ≡ lines.old ++ branch_lines (context_of context.now) (branches_of branches.now)) }
{
    for branch in branches {
        put_line(
            branch.line,
            is_faulty(&branch.test, context, Use::plain()),
            lines,
        )?;
    }
    Ok(())
}

fn put_clauses(
    clauses: &[Clause],
    line: u32,
    context: &Context<'_>,
    lines: &mut Lines,
) -> Result<(), AllocError>
    ensures { OnOk result (lines.new ≡ lines.old ++ clause_lines (context_of context.now) line (clauses_of clauses.now)) }
{
    for clause in clauses {
        let is_fault = is_any_faulty(&clause.matches, context, Use::plain())
            || is_faulty_bind(&clause.bind, context);
        put_line(line, is_fault, lines)?;
    }
    Ok(())
}

/// Puts the lines of the faults in what a statement of the module defines.
fn put_within(
    alloc: Global,
    kind: &StmtKind,
    context: &Context<'_>,
    lines: &mut Lines,
) -> Result<(), AllocError>
    ensures { OnOk result (lines.new ≡ lines.old ++ within_lines (context_of context.now) (kind_of kind.now)) }
{
    match kind {
        StmtKind::Def(function) => put_body(alloc, function.get(), context, lines),
        StmtKind::Class(class) => put_class_body(alloc, class.get(), context, lines),
        _ => Ok(()),
    }
}

/// Those in the body of a function.
fn put_body(
    alloc: Global,
    function: &Function,
    context: &Context<'_>,
    lines: &mut Lines,
) -> Result<(), AllocError>
    ensures { OnOk result (lines.new ≡ lines.old ++ body_lines (context_of context.now) (function_of function.now)) }
{
    let body = function.body.as_slice();
    let bindings = bindings_of(alloc, body)?;
    put_bound(
        alloc,
        function.params.as_slice(),
        bindings.as_slice(),
        body,
        context,
        lines,
    )
}

/// Those in the body of a function with these parameters and bindings.
fn put_bound<'a>(
    alloc: Global,
    params: &'a [Param],
    bindings: &'a [Binding],
    body: &[Stmt],
    context: &Context<'_>,
    lines: &mut Lines,
) -> Result<(), AllocError>
    requires { bindings.now ≡ scope.bindings (statements_of body.now) }
    ensures { OnOk result (lines.new ≡ lines.old ++ scope_lines (in_function_body (context_of context.now) (map param_of params.now) (statements_of body.now)) (statements_of body.now)) }
{
    let locals = locals_of(alloc, params, bindings)?;
    let inside = Context {
        in_class: context.in_class,
        in_method: context.in_class,
        statics: context.statics,
        locals: &locals,
    };
    put_scope(alloc, body, &inside, lines)
}

/// Those in a block and the blocks in it.
fn put_scope(
    alloc: Global,
    body: &[Stmt],
    context: &Context<'_>,
    lines: &mut Lines,
) -> Result<(), AllocError>
    ensures { OnOk result (lines.new ≡ lines.old ++ scope_lines (context_of context.now) (statements_of body.now)) }
{
    let scope = scope_of(alloc, body)?;
    put_each(scope.as_slice(), context, lines)
}

fn put_each(scope: &[&Stmt], context: &Context<'_>, lines: &mut Lines) -> Result<(), AllocError>
    ensures { OnOk result (lines.new ≡ lines.old ++ flat_map (own_lines (context_of context.now)) (seen scope.now)) }
{
    for statement in scope {
        put_own(statement, context, lines)?;
    }
    Ok(())
}

/// Those in the body of a class.
fn put_class_body(
    alloc: Global,
    class: &ClassDef,
    context: &Context<'_>,
    lines: &mut Lines,
) -> Result<(), AllocError>
    ensures { OnOk result (lines.new ≡ lines.old ++ within_class (context_of context.now) (class_of class.now)) }
{
    let scope = scope_of(alloc, class.body.as_slice())?;
    let inside = context.in_class_body();
    put_members(alloc, scope.as_slice(), &inside, lines)
}

fn put_members(
    alloc: Global,
    scope: &[&Stmt],
    context: &Context<'_>,
    lines: &mut Lines,
) -> Result<(), AllocError>
    ensures { OnOk result (lines.new ≡ lines.old ++ flat_map (member_lines (context_of context.now)) (seen scope.now)) }
{
    for statement in scope {
        put_member(alloc, statement, context, lines)?;
    }
    Ok(())
}

/// Puts the lines of the faults in a statement of a class body.
fn put_member(
    alloc: Global,
    statement: &Stmt,
    context: &Context<'_>,
    lines: &mut Lines,
) -> Result<(), AllocError>
    ensures { OnOk result (lines.new ≡ lines.old ++ member_lines (context_of context.now) (statement_of statement.now)) }
{
    match &statement.kind {
        StmtKind::Annotate(target, kind, value) => {
            let is_fault = is_faulty_field(target, context)
                || is_faulty(kind.get(), context, Use::typed())
                || is_value_faulty(value, context, Use::plain());
            put_line(statement.line, is_fault, lines)
        }
        StmtKind::Def(method) => put_method(alloc, statement.line, method.get(), context, lines),
        _ => Ok(()),
    }
}

fn put_method(
    alloc: Global,
    line: u32,
    method: &Function,
    context: &Context<'_>,
    lines: &mut Lines,
) -> Result<(), AllocError>
    ensures { OnOk result (lines.new ≡ lines.old ++ spec.method_lines (context_of context.now) line (function_of method.now)) }
{
    let is_fault = context.forbids_method(&method.name)
        || is_faulty_signature(method.params.as_slice(), &method.result, context);
    put_line(line, is_fault, lines)?;
    put_body(alloc, method, context, lines)
}
