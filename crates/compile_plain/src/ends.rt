ghost use Rattle.std.specs.Prelude.{◌≡◌, ◌+◌, IfOk};
ghost use Rattle.py_tree.specs.Joined.{expression_of, expressions_of, keywords_of, pairs_of};
ghost use Rattle.compile_plain.specs.Expressions.{expr_end, exprs_end, keywords_end, pairs_end, static_end};
ghost use Rattle.compile_plain.specs.Trees.{base_call_end, call_of, last_arg_end};
ghost use Rattle.compile_plain.specs.Scopes.{names_of};

use crate::block::next;
use crate::scope::{CallForm, Scope};
use py_tree::expression::{Call, Expr, Keyword, Pair};
use std::alloc::AllocError;
use symbols::binding::StaticName;

/// The place behind the code of an expression that begins at a place.
#[cycle(ends)]
pub(crate) fn end_of(e: &Expr, scope: &Scope<'_>, place: u32) -> Result<u32, AllocError>
    ensures { IfOk result (λ end. end ≡ expr_end (names_of scope.now) place (expression_of e.now)) }
{
    match e {
        Expr::Tuple(items) | Expr::List(items) => next(end_of_all(items.as_slice(), scope, place)?),
        Expr::Dict(pairs) => next(end_of_pairs(pairs.as_slice(), scope, place)?),
        Expr::Unary(_, e) | Expr::Not(e) | Expr::Attr(e, _) => next(end_of(e.get(), scope, place)?),
        Expr::Is { left, .. } => next(end_of(left.get(), scope, place)?),
        Expr::Binary(_, a, b) => {
            let middle = end_of(a.get(), scope, place)?;
            next(end_of(b.get(), scope, middle)?)
        }
        Expr::Compare(_, a, b) => {
            let middle = end_of(a.get(), scope, place)?;
            next(end_of(b.get(), scope, middle)?)
        }
        Expr::Index(a, b) => {
            let middle = end_of(a.get(), scope, place)?;
            next(end_of(b.get(), scope, middle)?)
        }
        Expr::And(a, b) | Expr::Or(a, b) => {
            let middle = end_of(a.get(), scope, place)?;
            end_of(b.get(), scope, next(middle)?)
        }
        Expr::Cond { test, yes, no } => {
            let tested = end_of(test.get(), scope, place)?;
            let first = end_of(yes.get(), scope, next(tested)?)?;
            end_of(no.get(), scope, next(first)?)
        }
        Expr::Call(call) => end_of_call(call.get(), scope, place),
        _ => next(place),
    }
}

#[cycle(ends)]
fn end_of_call(call: &Call, scope: &Scope<'_>, place: u32) -> Result<u32, AllocError>
    ensures { IfOk result (λ end. end ≡ expr_end (names_of scope.now) place (call_of call.now)) }
{
    match scope.form(&call.callee) {
        CallForm::Plain => {
            let Call { callee, args, keys } = call;
            let first = end_of(callee, scope, place)?;
            let middle = end_of_all(args.as_slice(), scope, first)?;
            next(end_of_keywords(keys.as_slice(), scope, middle)?)
        }
        CallForm::Super(_) => end_of_base(call, scope, place),
        CallForm::Static(name) => end_of_static(name, end_of_last(call, scope, place)?),
    }
}

/// Behind the code of a call of a method of a base.
#[cycle(ends)]
fn end_of_base(call: &Call, scope: &Scope<'_>, place: u32) -> Result<u32, AllocError>
    ensures { IfOk result (λ end. end ≡ base_call_end (names_of scope.now) place (call_of call.now)) }
{
    if scope.class().is_none() {
        return next(place);
    }
    let first = next(next(place)?)?;
    let middle = end_of_all(call.args.as_slice(), scope, first)?;
    next(end_of_keywords(call.keys.as_slice(), scope, middle)?)
}

/// Behind the code of the last argument alone.
#[cycle(ends)]
fn end_of_last(call: &Call, scope: &Scope<'_>, place: u32) -> Result<u32, AllocError>
    ensures { IfOk result (λ end. end ≡ last_arg_end (names_of scope.now) place (call_of call.now)) }
{
    match call.args.as_slice() {
        [] => next(place),
        [.., last] => end_of(last, scope, place),
    }
}

#[cycle(ends)]
fn end_of_all(items: &[Expr], scope: &Scope<'_>, place: u32) -> Result<u32, AllocError>
    ensures { IfOk result (λ end. end ≡ exprs_end (names_of scope.now) place (expressions_of items.now)) }
{
    let mut end = place;
    for item in items {
        end = end_of(item, scope, end)?;
    }
    Ok(end)
}

#[cycle(ends)]
fn end_of_pairs(pairs: &[Pair], scope: &Scope<'_>, place: u32) -> Result<u32, AllocError>
    ensures { IfOk result (λ end. end ≡ pairs_end (names_of scope.now) place (pairs_of pairs.now)) }
{
    let mut end = place;
    for pair in pairs {
        end = end_of(&pair.key, scope, end)?;
        end = end_of(&pair.value, scope, end)?;
    }
    Ok(end)
}

#[cycle(ends)]
fn end_of_keywords(keys: &[Keyword], scope: &Scope<'_>, place: u32) -> Result<u32, AllocError>
    ensures { IfOk result (λ end. end ≡ keywords_end (names_of scope.now) place (keywords_of keys.now)) }
{
    let mut end = place;
    for key in keys {
        end = end_of(&key.value, scope, end)?;
    }
    Ok(end)
}

/// Behind the conversion of what a boundary is called with.
fn end_of_static(name: StaticName, end: u32) -> Result<u32, AllocError>
    ensures { IfOk result (λ behind. behind ≡ static_end name end) }
{
    match name {
        StaticName::Int64 | StaticName::CBool | StaticName::Cast => Ok(end),
        _ => next(end),
    }
}
