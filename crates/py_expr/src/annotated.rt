ghost use Rattle.std.specs.Prelude.{◌∷◌, IfOk};
ghost use Rattle.py_lexer.specs.declared.token.Token.TheVariants as token;
ghost use Rattle.py_tree.specs.Syntax as x;
ghost use Rattle.py_phrases.specs.Tokens as t;
ghost use Rattle.py_expr.specs.Statements.{AnnotatesAt, StatementAt};

use crate::expressions::named;
use crate::found::both;
use crate::made::annotating;
use crate::whole::{Whole, annotation};
use py_lexer::token::Token;
use py_phrases::phrase::Built;
use py_tree::expression::{Expr, Target};
use py_tree::statement::StmtKind;
use py_tree::text::Text;
use sqlite_items::Boxed;
use std::alloc::Global;

/// A target with its annotation and value.
type Annotation = (Target, (Expr, Option<Expr>));

/// The name with what all the tokens are.
fn of_name(alloc: Global, name: &Text, tokens: &[Token]) -> Whole<Annotation>
    ensures { IfOk result (λ found. AnnotatesAt (x.ToName name.now) tokens.now found) }
{
    let target = name.copy(alloc)?;
    match annotation(alloc, tokens)? {
        Some(annotation) => Ok(Some(both(Built::Shallow(Target::Name(target)), annotation))),
        None => Ok(None),
    }
}

/// The attribute of a name with what all the tokens are.
fn of_attribute(alloc: Global, object: &Text, name: &Text, tokens: &[Token]) -> Whole<Annotation>
    ensures { IfOk result (λ found. AnnotatesAt (x.ToAttr (x.Name object.now) name.now) tokens.now found) }
{
    let object = Boxed::new(alloc, named(alloc, object)?)?;
    let member = name.copy(alloc)?;
    match annotation(alloc, tokens)? {
        Some(annotation) => {
            let target = Target::Attr(object, member);
            Ok(Some(both(Built::Shallow(target), annotation)))
        }
        None => Ok(None),
    }
}

/// `E ["=" L]`, behind `NAME ":"`.
pub(crate) fn annotated_name(alloc: Global, name: &Text, tokens: &[Token]) -> Whole<StmtKind>
    ensures { IfOk result (λ found. StatementAt (token.Name name.now ∷ t.colon ∷ tokens.now) found) }
{
    match of_name(alloc, name, tokens)? {
        Some(parts) => {
            let kind = annotating(alloc, parts)?;
            Ok(Some(kind))
        }
        None => Ok(None),
    }
}

/// `E ["=" L]`, behind `NAME "." NAME ":"`.
pub(crate) fn annotated_attribute(
    alloc: Global,
    object: &Text,
    name: &Text,
    tokens: &[Token],
) -> Whole<StmtKind>
    ensures { IfOk result (λ found. StatementAt (token.Name object.now ∷ t.dot ∷ token.Name name.now ∷ t.colon ∷ tokens.now) found) }
{
    match of_attribute(alloc, object, name, tokens)? {
        Some(parts) => {
            let kind = annotating(alloc, parts)?;
            Ok(Some(kind))
        }
        None => Ok(None),
    }
}
