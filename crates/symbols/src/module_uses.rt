ghost use Rattle.std.specs.Prelude.{◌≡◌, ◌++◌, OnOk, IfOk, map};
ghost use Rattle.std.specs.List.{flat_map};
ghost use Rattle.py_tree.specs.Joined.{branches_of, class_of, clauses_of, expression_of, function_of, kind_of, maybe_of, param_of, statements_of, target_of};
ghost use Rattle.symbols.specs.Contexts.{context_of};
ghost use Rattle.symbols.specs.StaticUses as spec;
ghost use Rattle.symbols.specs.Unders.{context_under};

use crate::binding::Binding;
use crate::bindings::bindings_of;
use crate::bound_names::{locals_of, statics_of};
use crate::context::{Context, Statics};
use crate::names::Names;
use crate::resolved::ModuleKind;
use crate::static_use::StaticUses;
use crate::uses::{put_any, put_uses, put_value};
use py_tree::expression::{Expr, Param, Target};
use py_tree::statement::{Branch, ClassDef, Clause, Function, Stmt, StmtKind};
use std::alloc::{AllocError, Global};

/// The uses of static names in a module of this kind with these bindings.
pub(crate) fn static_uses(
    alloc: Global,
    kind: ModuleKind,
    bindings: &[Binding],
    body: &[Stmt],
) -> Result<StaticUses, AllocError>
    ensures { IfOk result (λ all. all ≡ spec.uses_with kind bindings.now (statements_of body.now)) }
{
    let statics = statics_of(alloc, kind, bindings)?;
    uses_under(alloc, &statics, body)
}

fn uses_under(alloc: Global, statics: &Statics<'_>, body: &[Stmt]) -> Result<StaticUses, AllocError>
    ensures { IfOk result (λ all. all ≡ spec.block_uses (context_under statics.now) (statements_of body.now)) }
{
    let locals = Names::new(alloc);
    let context = Context {
        in_class: false,
        in_method: false,
        statics,
        locals: &locals,
    };
    let mut all = StaticUses::new(alloc);
    put_block(body, alloc, &context, &mut all)?;
    Ok(all)
}

/// Puts the uses in a block and the blocks in it, the bodies of defs and classes among them.
#[cycle(module_uses)]
fn put_block(
    body: &[Stmt],
    alloc: Global,
    context: &Context<'_>,
    all: &mut StaticUses,
) -> Result<(), AllocError>
    ensures { OnOk result (all.new ≡ all.old ++ spec.block_uses (context_of context.now) (statements_of body.now)) }
{
    for statement in body {
        put_statement(&statement.kind, statement.line, alloc, context, all)?;
    }
    Ok(())
}

#[cycle(module_uses)]
fn put_statement(
    kind: &StmtKind,
    line: u32,
    alloc: Global,
    context: &Context<'_>,
    all: &mut StaticUses,
) -> Result<(), AllocError>
    ensures { OnOk result (all.new ≡ all.old ++ spec.statement_uses (context_of context.now) line (kind_of kind.now)) }
{
    match kind {
        StmtKind::Return(value) => put_any(value, line, context, all),
        StmtKind::Raise(value) => put_any(value, line, context, all),
        StmtKind::Eval(e) => put_uses(e, line, context, all),
        StmtKind::Assign(target, e) => put_pair(target, e, line, context, all),
        StmtKind::Annotate(target, kind, value) => {
            put_pair(target, kind.get(), line, context, all)?;
            put_value(value, line, context, all)
        }
        StmtKind::Augment(target, _, e) => put_pair(target, e, line, context, all),
        StmtKind::If { branches, orelse } => {
            put_branches(branches.as_slice(), alloc, context, all)?;
            put_block(orelse.as_slice(), alloc, context, all)
        }
        StmtKind::While(test, body) => {
            put_uses(test, line, context, all)?;
            put_block(body.as_slice(), alloc, context, all)
        }
        StmtKind::For(target, e, body) => {
            put_pair(target, e.get(), line, context, all)?;
            put_block(body.as_slice(), alloc, context, all)
        }
        StmtKind::Try(body, clauses) => {
            put_block(body.as_slice(), alloc, context, all)?;
            put_clauses(clauses.as_slice(), line, alloc, context, all)
        }
        StmtKind::Def(function) => put_function(function.get(), line, alloc, context, all),
        StmtKind::Class(class) => put_class(class.get(), line, alloc, context, all),
        _ => Ok(()),
    }
}

#[cycle(module_uses)]
fn put_branches(
    branches: &[Branch],
    alloc: Global,
    context: &Context<'_>,
    all: &mut StaticUses,
) -> Result<(), AllocError>
    ensures { OnOk result (all.new ≡ all.old ++ spec.branches_uses (context_of context.now) (branches_of branches.now)) }
{
    for branch in branches {
        put_uses(&branch.test, branch.line, context, all)?;
        put_block(branch.body.as_slice(), alloc, context, all)?;
    }
    Ok(())
}

/// Puts the uses in the clauses of a `try`, which have its line, and in their blocks.
#[cycle(module_uses)]
fn put_clauses(
    clauses: &[Clause],
    line: u32,
    alloc: Global,
    context: &Context<'_>,
    all: &mut StaticUses,
) -> Result<(), AllocError>
    ensures { OnOk result (all.new ≡ all.old ++ spec.clauses_uses (context_of context.now) line (clauses_of clauses.now)) }
{
    for clause in clauses {
        put_any(&clause.matches, line, context, all)?;
        put_block(clause.body.as_slice(), alloc, context, all)?;
    }
    Ok(())
}

/// Puts the uses in the signature of a function, which stands outside it, and in its body.
#[cycle(module_uses)]
fn put_function(
    function: &Function,
    line: u32,
    alloc: Global,
    context: &Context<'_>,
    all: &mut StaticUses,
) -> Result<(), AllocError>
    ensures { OnOk result (all.new ≡ all.old ++ spec.function_uses (context_of context.now) line (function_of function.now)) }
{
    put_signature(
        function.params.as_slice(),
        &function.result,
        line,
        context,
        all,
    )?;
    let bindings = bindings_of(alloc, function.body.as_slice())?;
    let locals = locals_of(alloc, function.params.as_slice(), bindings.as_slice())?;
    let inside = Context {
        in_class: context.in_class,
        in_method: context.in_class,
        statics: context.statics,
        locals: &locals,
    };
    put_block(function.body.as_slice(), alloc, &inside, all)
}

#[cycle(module_uses)]
fn put_class(
    class: &ClassDef,
    line: u32,
    alloc: Global,
    context: &Context<'_>,
    all: &mut StaticUses,
) -> Result<(), AllocError>
    ensures { OnOk result (all.new ≡ all.old ++ spec.class_uses (context_of context.now) line (class_of class.now)) }
{
    put_any(&class.base, line, context, all)?;
    let inside = context.in_class_body();
    put_block(class.body.as_slice(), alloc, &inside, all)
}

fn put_signature(
    params: &[Param],
    result_kind: &Option<Expr>,
    line: u32,
    context: &Context<'_>,
    all: &mut StaticUses,
) -> Result<(), AllocError>
    ensures { OnOk result (all.new ≡ all.old ++ spec.signature_uses (context_of context.now) line (map param_of params.now) (maybe_of result_kind.now)) }
{
    put_params(params, line, context, all)?;
    put_any(result_kind, line, context, all)
}

fn put_pair(
    target: &Target,
    e: &Expr,
    line: u32,
    context: &Context<'_>,
    all: &mut StaticUses,
) -> Result<(), AllocError>
    ensures { OnOk result (all.new ≡ all.old ++ spec.pair_uses (context_of context.now) line (target_of target.now) (expression_of e.now)) }
{
    put_target(target, line, context, all)?;
    put_uses(e, line, context, all)
}

fn put_target(
    target: &Target,
    line: u32,
    context: &Context<'_>,
    all: &mut StaticUses,
) -> Result<(), AllocError>
    ensures { OnOk result (all.new ≡ all.old ++ spec.target_uses (context_of context.now) line (target_of target.now)) }
{
    match target {
        Target::Attr(e, _) => put_uses(e.get(), line, context, all),
        Target::Index(e, i) => {
            put_uses(e.get(), line, context, all)?;
            put_uses(i.get(), line, context, all)
        }
        _ => Ok(()),
    }
}

fn put_params(
    params: &[Param],
    line: u32,
    context: &Context<'_>,
    all: &mut StaticUses,
) -> Result<(), AllocError>
    ensures { OnOk result (all.new ≡ all.old ++ flat_map (spec.param_uses (context_of context.now) line) (map param_of params.now)) }
{
    for param in params {
        put_any(&param.kind, line, context, all)?;
        put_any(&param.default, line, context, all)?;
    }
    Ok(())
}
