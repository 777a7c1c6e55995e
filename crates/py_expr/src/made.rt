ghost use Rattle.std.specs.Prelude.{◌≡◌, IfOk, Some};
ghost use Rattle.py_tree.specs.Joined.{kind_of, target_of};
ghost use Rattle.py_tree.specs.Syntax as x;
ghost use Rattle.py_expr.specs.Statements.{Annotates, annotation_of, Makes, MakesOfBoth};

use py_phrases::phrase::Built;
use py_tree::expression::{Expr, Target};
use py_tree::operator::BinaryOp;
use py_tree::statement::StmtKind;
use sqlite_items::Boxed;
use std::alloc::{AllocError, Global};

/// `return`
pub(crate) fn returning(value: Built<Expr>) -> Built<StmtKind>
    ensures { Makes (λ e. x.Return (Some e)) value result }
{
    match value {
        Built::Shallow(value) => Built::Shallow(StmtKind::Return(Some(value))),
        Built::TooDeep => Built::TooDeep,
    }
}

/// `raise`
pub(crate) fn raising(value: Built<Expr>) -> Built<StmtKind>
    ensures { Makes (λ e. x.Raise (Some e)) value result }
{
    match value {
        Built::Shallow(value) => Built::Shallow(StmtKind::Raise(Some(value))),
        Built::TooDeep => Built::TooDeep,
    }
}

/// An expression statement.
pub(crate) fn evaluating(value: Built<Expr>) -> Built<StmtKind>
    ensures { Makes x.Eval value result }
{
    match value {
        Built::Shallow(value) => Built::Shallow(StmtKind::Eval(value)),
        Built::TooDeep => Built::TooDeep,
    }
}

/// `target = value`
pub(crate) fn assigning(parts: Built<(Target, Expr)>) -> Built<StmtKind>
    ensures { MakesOfBoth x.Assign parts result }
{
    match parts {
        Built::Shallow((target, value)) => Built::Shallow(StmtKind::Assign(target, value)),
        Built::TooDeep => Built::TooDeep,
    }
}

/// `target op= value`
pub(crate) fn augmenting(parts: Built<(Target, Expr)>, op: BinaryOp) -> Built<StmtKind>
    ensures { MakesOfBoth (λ g e. x.Augment g op e) parts result }
{
    match parts {
        Built::Shallow((target, value)) => Built::Shallow(StmtKind::Augment(target, op, value)),
        Built::TooDeep => Built::TooDeep,
    }
}

/// The expression in a box, where there is one.
fn boxed(alloc: Global, value: Option<Expr>) -> Result<Option<Boxed<Expr>>, AllocError>
    ensures { IfOk result (λ made. made ≡ value) }
{
    match value {
        Some(value) => Ok(Some(Boxed::new(alloc, value)?)),
        None => Ok(None),
    }
}

/// `target: kind = value`
fn annotation(
    alloc: Global,
    target: Target,
    parts: (Expr, Option<Expr>),
) -> Result<StmtKind, AllocError>
    ensures { IfOk result (λ kind. kind_of kind ≡ x.Annotate (target_of target) (annotation_of parts).0 (annotation_of parts).1) }
{
    let kind = Boxed::new(alloc, parts.0)?;
    let value = boxed(alloc, parts.1)?;
    Ok(StmtKind::Annotate(target, kind, value))
}

/// `target: kind = value`
pub(crate) fn annotating(
    alloc: Global,
    parts: Built<(Target, (Expr, Option<Expr>))>,
) -> Result<Built<StmtKind>, AllocError>
    ensures { IfOk result (Annotates parts) }
{
    match parts {
        Built::Shallow((target, parts)) => {
            let kind = annotation(alloc, target, parts)?;
            Ok(Built::Shallow(kind))
        }
        Built::TooDeep => Ok(Built::TooDeep),
    }
}
