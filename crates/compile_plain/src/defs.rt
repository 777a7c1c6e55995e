ghost use Rattle.std.specs.Prelude.{◌≡◌, ◌++◌, IfOk, OnOk, map};
ghost use Rattle.py_tree.specs.Joined.{class_of, function_of, kind_of, maybe_of, param_of, statements_of};
ghost use Rattle.py_tree.specs.Syntax as x;
ghost use Rattle.compile_plain.specs.Definitions as spec;
ghost use Rattle.compile_plain.specs.Definitions.{base_code, bind_function_end, class_code, class_end, def_code, def_end, default_code, default_end, defaults_code, defaults_end, member_code, member_end, members_code, members_end, own_defaults_code, own_defaults_end};
ghost use Rattle.compile_plain.specs.Scopes.{names_of};

use crate::assigns::put_store;
use crate::block::{Block, next};
use crate::ends::end_of;
use crate::exprs::put_expr;
use crate::scope::Scope;
use crate::site::Site;
use bytecode::instr::Instr;
use py_tree::expression::{Expr, Param};
use py_tree::statement::{ClassDef, Function, Stmt, StmtKind};
use std::alloc::AllocError;

/// Puts the code of a `def`.
pub(crate) fn put_def(f: &Function, site: &Site<'_>, block: &mut Block) -> Result<(), AllocError>
    ensures cells { OnOk result (block.new.cells ≡ block.old.cells ++ def_code (names_of site.now.scope.now) site.now.targets.raised block.old.end (function_of f.now)) }
    ensures end { OnOk result (block.new.end ≡ def_end (names_of site.now.scope.now) block.old.end (function_of f.now)) }
{
    let number = site.scope.function(None, &f.name);
    put_own_defaults(f.params.as_slice(), number, site, block)?;
    match number {
        None => site.put(
            Instr::Unbind(site.scope.variable(site.alloc, &f.name)?),
            block,
        ),
        Some(number) => {
            site.put(Instr::Function(number), block)?;
            put_store(&f.name, site, block)
        }
    }
}

/// Puts the code of a class statement.
pub(crate) fn put_class(
    class: &ClassDef,
    site: &Site<'_>,
    block: &mut Block,
) -> Result<(), AllocError>
    ensures cells { OnOk result (block.new.cells ≡ block.old.cells ++ class_code (names_of site.now.scope.now) site.now.targets.raised block.old.end (class_of class.now)) }
    ensures end { OnOk result (block.new.end ≡ class_end (names_of site.now.scope.now) block.old.end (class_of class.now)) }
{
    let number = site.scope.class_number(&class.name);
    put_base(&class.base, site, block)?;
    put_members(class.body.as_slice(), number, site, block)?;
    match number {
        None => site.put(
            Instr::Unbind(site.scope.variable(site.alloc, &class.name)?),
            block,
        ),
        Some(number) => {
            site.put(Instr::Class(number), block)?;
            put_store(&class.name, site, block)
        }
    }
}

fn put_base(base: &Option<Expr>, site: &Site<'_>, block: &mut Block) -> Result<(), AllocError>
    ensures cells { OnOk result (block.new.cells ≡ block.old.cells ++ base_code (names_of site.now.scope.now) site.now.targets.raised block.old.end (maybe_of base.now)) }
    ensures end { OnOk result (block.new.end ≡ spec.base_end (names_of site.now.scope.now) block.old.end (maybe_of base.now)) }
{
    match base {
        None => Ok(()),
        Some(e) => {
            put_expr(e, site, block)?;
            site.put(Instr::DropTop, block)
        }
    }
}

fn put_members(
    body: &[Stmt],
    class: Option<u32>,
    site: &Site<'_>,
    block: &mut Block,
) -> Result<(), AllocError>
    ensures cells { OnOk result (block.new.cells ≡ block.old.cells ++ members_code (names_of site.now.scope.now) site.now.targets.raised class block.old.end (statements_of body.now)) }
    ensures end { OnOk result (block.new.end ≡ members_end (names_of site.now.scope.now) class block.old.end (statements_of body.now)) }
{
    for statement in body {
        site.put(Instr::Begin(site.scope.line(statement.line)), block)?;
        put_member(&statement.kind, class, site, block)?;
    }
    Ok(())
}

fn put_member(
    kind: &StmtKind,
    class: Option<u32>,
    site: &Site<'_>,
    block: &mut Block,
) -> Result<(), AllocError>
    ensures cells { OnOk result (block.new.cells ≡ block.old.cells ++ member_code (names_of site.now.scope.now) site.now.targets.raised class block.old.end (kind_of kind.now)) }
    ensures end { OnOk result (block.new.end ≡ member_end (names_of site.now.scope.now) class block.old.end (kind_of kind.now)) }
{
    match kind {
        StmtKind::Def(f) => put_method(f.get(), class, site, block),
        _ => Ok(()),
    }
}

/// Puts the code of the defaults of a method.
fn put_method(
    f: &Function,
    class: Option<u32>,
    site: &Site<'_>,
    block: &mut Block,
) -> Result<(), AllocError>
    ensures cells { OnOk result (block.new.cells ≡ block.old.cells ++ member_code (names_of site.now.scope.now) site.now.targets.raised class block.old.end (x.Def (function_of f.now))) }
    ensures end { OnOk result (block.new.end ≡ member_end (names_of site.now.scope.now) class block.old.end (x.Def (function_of f.now))) }
{
    let number = site.scope.function(class, &f.name);
    put_own_defaults(f.params.as_slice(), number, site, block)
}

fn put_own_defaults(
    params: &[Param],
    function: Option<u32>,
    site: &Site<'_>,
    block: &mut Block,
) -> Result<(), AllocError>
    ensures cells { OnOk result (block.new.cells ≡ block.old.cells ++ own_defaults_code (names_of site.now.scope.now) site.now.targets.raised function block.old.end (map param_of params.now)) }
    ensures end { OnOk result (block.new.end ≡ own_defaults_end (names_of site.now.scope.now) function block.old.end (map param_of params.now)) }
{
    match function {
        None => Ok(()),
        Some(function) => put_defaults(params, function, site, block),
    }
}

fn put_defaults(
    params: &[Param],
    function: u32,
    site: &Site<'_>,
    block: &mut Block,
) -> Result<(), AllocError>
    ensures cells { OnOk result (block.new.cells ≡ block.old.cells ++ defaults_code (names_of site.now.scope.now) site.now.targets.raised function 0 block.old.end (map param_of params.now)) }
    ensures end { OnOk result (block.new.end ≡ defaults_end (names_of site.now.scope.now) block.old.end (map param_of params.now)) }
{
    let mut parameter = 0;
    for param in params {
        put_default(&param.default, function, parameter, site, block)?;
        parameter = next(parameter)?;
    }
    Ok(())
}

fn put_default(
    default: &Option<Expr>,
    function: u32,
    parameter: u32,
    site: &Site<'_>,
    block: &mut Block,
) -> Result<(), AllocError>
    ensures cells { OnOk result (block.new.cells ≡ block.old.cells ++ default_code (names_of site.now.scope.now) site.now.targets.raised function parameter block.old.end (maybe_of default.now)) }
    ensures end { OnOk result (block.new.end ≡ default_end (names_of site.now.scope.now) block.old.end (maybe_of default.now)) }
{
    match default {
        None => Ok(()),
        Some(e) => {
            put_expr(e, site, block)?;
            site.put(
                Instr::SetDefault {
                    function,
                    parameter,
                },
                block,
            )
        }
    }
}

/// The place behind the code of a `def` that begins at a place.
pub(crate) fn end_of_def(f: &Function, scope: &Scope<'_>, place: u32) -> Result<u32, AllocError>
    ensures { IfOk result (λ end. end ≡ def_end (names_of scope.now) place (function_of f.now)) }
{
    let number = scope.function(None, &f.name);
    end_of_binding(
        number,
        end_of_own_defaults(f.params.as_slice(), number, scope, place)?,
    )
}

/// The place behind the code of a class statement that begins at a place.
pub(crate) fn end_of_class(
    class: &ClassDef,
    scope: &Scope<'_>,
    place: u32,
) -> Result<u32, AllocError>
    ensures { IfOk result (λ end. end ≡ class_end (names_of scope.now) place (class_of class.now)) }
{
    let number = scope.class_number(&class.name);
    let first = end_of_base(&class.base, scope, place)?;
    end_of_binding(
        number,
        end_of_members(class.body.as_slice(), number, scope, first)?,
    )
}

fn end_of_binding(number: Option<u32>, place: u32) -> Result<u32, AllocError>
    ensures { IfOk result (λ end. end ≡ bind_function_end number place) }
{
    match number {
        None => next(place),
        Some(_) => next(next(place)?),
    }
}

fn end_of_base(base: &Option<Expr>, scope: &Scope<'_>, place: u32) -> Result<u32, AllocError>
    ensures { IfOk result (λ end. end ≡ spec.base_end (names_of scope.now) place (maybe_of base.now)) }
{
    match base {
        None => Ok(place),
        Some(e) => next(end_of(e, scope, place)?),
    }
}

fn end_of_members(
    body: &[Stmt],
    class: Option<u32>,
    scope: &Scope<'_>,
    place: u32,
) -> Result<u32, AllocError>
    ensures { IfOk result (λ end. end ≡ members_end (names_of scope.now) class place (statements_of body.now)) }
{
    let mut end = place;
    for statement in body {
        end = end_of_member(&statement.kind, class, scope, next(end)?)?;
    }
    Ok(end)
}

fn end_of_member(
    kind: &StmtKind,
    class: Option<u32>,
    scope: &Scope<'_>,
    place: u32,
) -> Result<u32, AllocError>
    ensures { IfOk result (λ end. end ≡ member_end (names_of scope.now) class place (kind_of kind.now)) }
{
    match kind {
        StmtKind::Def(f) => end_of_method(f.get(), class, scope, place),
        _ => Ok(place),
    }
}

fn end_of_method(
    f: &Function,
    class: Option<u32>,
    scope: &Scope<'_>,
    place: u32,
) -> Result<u32, AllocError>
    ensures { IfOk result (λ end. end ≡ member_end (names_of scope.now) class place (x.Def (function_of f.now))) }
{
    let number = scope.function(class, &f.name);
    end_of_own_defaults(f.params.as_slice(), number, scope, place)
}

fn end_of_own_defaults(
    params: &[Param],
    function: Option<u32>,
    scope: &Scope<'_>,
    place: u32,
) -> Result<u32, AllocError>
    ensures { IfOk result (λ end. end ≡ own_defaults_end (names_of scope.now) function place (map param_of params.now)) }
{
    match function {
        None => Ok(place),
        Some(_) => end_of_defaults(params, scope, place),
    }
}

fn end_of_defaults(params: &[Param], scope: &Scope<'_>, place: u32) -> Result<u32, AllocError>
    ensures { IfOk result (λ end. end ≡ defaults_end (names_of scope.now) place (map param_of params.now)) }
{
    let mut end = place;
    for param in params {
        end = end_of_default(&param.default, scope, end)?;
    }
    Ok(end)
}

fn end_of_default(e: &Option<Expr>, scope: &Scope<'_>, place: u32) -> Result<u32, AllocError>
    ensures { IfOk result (λ end. end ≡ default_end (names_of scope.now) place (maybe_of e.now)) }
{
    match e {
        None => Ok(place),
        Some(e) => next(end_of(e, scope, place)?),
    }
}
