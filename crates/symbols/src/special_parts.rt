ghost use Rattle.std.specs.Prelude.{◌≡◌, map};
ghost use Rattle.std.specs.List.{list_any};
ghost use Rattle.py_tree.specs.Joined.{kind_of, maybe_of, param_of, target_of};
ghost use Rattle.symbols.specs.Contexts.{context_of};
ghost use Rattle.symbols.specs.SpecialNames.{field_special, forbidden_binding, from_special, maybe_forbidden, member_special, module_special, own_special, param_special, signature_special, target_special};

use crate::bindings::{bound_name, is_marker_import};
use crate::context::{Context, Use};
use crate::special::{is_any_faulty, is_faulty, is_value_faulty};
use crate::words::is_word;
use py_tree::expression::{Expr, Param, Target};
use py_tree::statement::{ClassDef, Function, Import, StmtKind};
use py_tree::text::Text;

/// Whether a name that may not stand there stands in a statement itself: in no block of it, no condition of an `if` and no clause of a
/// `try`.
pub(crate) fn is_faulty_statement(kind: &StmtKind, context: &Context<'_>) -> bool
    ensures { result ≡ own_special (context_of context.now) (kind_of kind.now) }
{
    match kind {
        StmtKind::Return(value) => is_any_faulty(value, context, Use::plain()),
        StmtKind::Raise(value) => is_any_faulty(value, context, Use::plain()),
        StmtKind::Import(names) => any_module_faulty(names.as_slice(), context),
        StmtKind::From { module, names } => is_faulty_from(module, names.as_slice(), context),
        StmtKind::Eval(e) => is_faulty(e, context, Use::plain()),
        StmtKind::Assign(target, e) => {
            is_faulty_target(target, context) || is_faulty(e, context, Use::plain())
        }
        StmtKind::Annotate(target, kind, value) => {
            is_faulty_target(target, context)
                || is_faulty(kind.get(), context, Use::typed())
                || is_value_faulty(value, context, Use::plain())
        }
        StmtKind::Augment(target, _, e) => {
            is_faulty_target(target, context) || is_faulty(e, context, Use::plain())
        }
        StmtKind::While(test, _) => is_faulty(test, context, Use::plain()),
        StmtKind::For(target, e, _) => {
            is_faulty_target(target, context) || is_faulty(e.get(), context, Use::plain())
        }
        StmtKind::Def(function) => {
            let Function {
                name,
                params,
                result: annotation,
                ..
            } = function.get();
            context.forbids_binding(name)
                || is_faulty_signature(params.as_slice(), annotation, context)
        }
        StmtKind::Class(class) => {
            let ClassDef { name, base, .. } = class.get();
            context.forbids_binding(name) || is_any_faulty(base, context, Use::plain())
        }
        _ => false,
    }
}

/// Names, annotations and defaults of parameters, and the annotation of the result.
pub(crate) fn is_faulty_signature(
    params: &[Param],
    result_kind: &Option<Expr>,
    context: &Context<'_>,
) -> bool
    ensures { result ≡ signature_special (context_of context.now) (map param_of params.now) (maybe_of result_kind.now) }
{
    any_param_faulty(params, context) || is_any_faulty(result_kind, context, Use::typed())
}

fn any_param_faulty(params: &[Param], context: &Context<'_>) -> bool
    ensures { result ≡ list_any (param_special (context_of context.now)) (map param_of params.now) }
{
    for param in params {
        if is_faulty_param(param, context) {
            return true;
        }
    }
    false
}

fn is_faulty_param(param: &Param, context: &Context<'_>) -> bool
    ensures { result ≡ param_special (context_of context.now) (param_of param.now) }
{
    context.forbids_binding(&param.name)
        || is_any_faulty(&param.kind, context, Use::typed())
        || is_any_faulty(&param.default, context, Use::plain())
}

fn is_faulty_target(target: &Target, context: &Context<'_>) -> bool
    ensures { result ≡ target_special (context_of context.now) (target_of target.now) }
{
    match target {
        Target::Name(name) => context.forbids_binding(name),
        Target::Attr(e, name) => {
            context.forbids_target(name) || is_faulty(e.get(), context, Use::plain())
        }
        Target::Index(e, i) => {
            is_faulty(e.get(), context, Use::plain()) || is_faulty(i.get(), context, Use::plain())
        }
        Target::Names(names) => any_name_faulty(names.as_slice(), context),
    }
}

/// Whether a class may not have a field that is annotated so.
pub(crate) fn is_faulty_field(target: &Target, context: &Context<'_>) -> bool
    ensures { result ≡ field_special (context_of context.now) (target_of target.now) }
{
    match target {
        Target::Name(name) => context.forbids_field(name),
        _ => false,
    }
}

fn any_name_faulty(names: &[Text], context: &Context<'_>) -> bool
    ensures { result ≡ list_any (forbidden_binding (context_of context.now)) names.now }
{
    for name in names {
        if context.forbids_binding(name) {
            return true;
        }
    }
    false
}

/// Whether an except clause may not bind that name.
pub(crate) fn is_faulty_bind(name: &Option<Text>, context: &Context<'_>) -> bool
    ensures { result ≡ maybe_forbidden (context_of context.now) name.now }
{
    match name {
        Some(name) => context.forbids_binding(name),
        None => false,
    }
}

fn any_module_faulty(names: &[Import], context: &Context<'_>) -> bool
    ensures { result ≡ list_any (module_special (context_of context.now)) names.now }
{
    for import in names {
        if is_faulty_module(import, context) {
            return true;
        }
    }
    false
}

fn is_faulty_module(import: &Import, context: &Context<'_>) -> bool
    ensures { result ≡ module_special (context_of context.now) import.now }
{
    !is_marker_import(import) && is_faulty_member(import, context)
}

fn is_faulty_from(from: &Text, names: &[Import], context: &Context<'_>) -> bool
    ensures { result ≡ from_special (context_of context.now) from.now names.now }
{
    !is_word(from, b"__future__") && any_member_faulty(names, context)
}

fn any_member_faulty(names: &[Import], context: &Context<'_>) -> bool
    ensures { result ≡ list_any (member_special (context_of context.now)) names.now }
{
    for import in names {
        if is_faulty_member(import, context) {
            return true;
        }
    }
    false
}

fn is_faulty_member(import: &Import, context: &Context<'_>) -> bool
    ensures { result ≡ member_special (context_of context.now) import.now }
{
    context.forbids_keyword(&import.name) || context.forbids_binding(bound_name(import))
}
