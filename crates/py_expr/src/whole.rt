ghost use Rattle.std.specs.Prelude.{IfOk};
ghost use Rattle.py_tree.specs.Joined.{expression_of, maybe_of};
ghost use Rattle.py_tree.specs.Nesting.{nesting};
ghost use Rattle.py_expr.specs.Depth.{maybe_nesting};
ghost use Rattle.py_expr.specs.Lines.{Value};
ghost use Rattle.py_expr.specs.Statements.{AllOfExpression, AllOfList, Annotated, IsLast, WholeAt, annotation_nesting, annotation_of};

use crate::expressions::{expression, list};
use crate::found::{Found, both, present};
use crate::front::after_mark;
use py_lexer::token::{Mark, Token};
use py_phrases::phrase::Built;
use py_tree::expression::Expr;
use std::alloc::{AllocError, Global};

/// What the reading of all tokens to the end answers.
pub(crate) type Whole<T> = Result<Option<Built<T>>, AllocError>;

/// The thing, where nothing follows it.
pub(crate) fn last<T: Drop>(thing: Built<T>, rest: &[Token]) -> Option<Built<T>>
    ensures { IsLast thing rest.now result }
{
    if rest.is_empty() { Some(thing) } else { None }
}

/// `L`
pub(crate) fn whole_list(alloc: Global, tokens: &[Token]) -> Whole<Expr>
    ensures { IfOk result (λ found. WholeAt AllOfList expression_of nesting tokens.now found) }
{
    match list(alloc, tokens)? {
        Some(found) => Ok(last(found.built, found.rest)),
        None => Ok(None),
    }
}

/// `E`
pub(crate) fn whole_expression(alloc: Global, tokens: &[Token]) -> Whole<Expr>
    ensures { IfOk result (λ found. WholeAt AllOfExpression expression_of nesting tokens.now found) }
{
    match expression(alloc, tokens)? {
        Some(found) => Ok(last(found.built, found.rest)),
        None => Ok(None),
    }
}

/// `["=" L]`
fn value(alloc: Global, tokens: &[Token]) -> Whole<Option<Expr>>
    ensures { IfOk result (λ found. WholeAt Value maybe_of maybe_nesting tokens.now found) }
{
    let Some(rest) = after_mark(tokens, Mark::Equal) else {
        return Ok(last(Built::Shallow(None), tokens));
    };
    match whole_list(alloc, rest)? {
        Some(built) => Ok(Some(present(Found { built, rest }).built)),
        None => Ok(None),
    }
}

/// `E ["=" L]`
pub(crate) fn annotation(alloc: Global, tokens: &[Token]) -> Whole<(Expr, Option<Expr>)>
    ensures { IfOk result (λ found. WholeAt Annotated annotation_of annotation_nesting tokens.now found) }
{
    let Some(kind) = expression(alloc, tokens)? else {
        return Ok(None);
    };
    match value(alloc, kind.rest)? {
        Some(value) => Ok(Some(both(kind.built, value))),
        None => Ok(None),
    }
}
