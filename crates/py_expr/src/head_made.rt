ghost use Rattle.std.specs.Prelude.{◌≡◌, IfOk, Some};
ghost use Rattle.py_tree.specs.Joined.{expression_of};
ghost use Rattle.py_expr.specs.Forms as form;
ghost use Rattle.py_expr.specs.Forms.{head_of};
ghost use Rattle.py_expr.specs.Heads.{MakesClass, MakesDef, MakesFor, MakesHead, test_form};

use crate::form::Head;
use crate::found::both;
use crate::head::Tested;
use py_phrases::phrase::Built;
use py_tree::expression::{Expr, Params, Target};
use py_tree::text::Text;
use sqlite_items::Boxed;
use std::alloc::{AllocError, Global};

/// `if test:`, `elif test:` or `while test:`
pub(crate) fn testing(head: Tested, test: Built<Expr>) -> Built<Head>
    ensures { MakesHead (test_form head) test result }
{
    match test {
        Built::Shallow(test) => Built::Shallow(tested(head, test)),
        Built::TooDeep => Built::TooDeep,
    }
}

fn tested(head: Tested, test: Expr) -> Head
    ensures { head_of result ≡ test_form head (expression_of test) }
{
    match head {
        Tested::If => Head::If(test),
        Tested::Elif => Head::Elif(test),
        Tested::While => Head::While(test),
    }
}

/// `for target in items:`
pub(crate) fn looping(
    alloc: Global,
    parts: Built<(Target, Expr)>,
) -> Result<Built<Head>, AllocError>
    ensures { IfOk result (MakesFor parts) }
{
    match parts {
        Built::Shallow((target, items)) => {
            let items = Boxed::new(alloc, items)?;
            Ok(Built::Shallow(Head::For(target, items)))
        }
        Built::TooDeep => Ok(Built::TooDeep),
    }
}

/// `except matches as bind:`
pub(crate) fn catching(matches: Built<Expr>, bind: Option<Text>) -> Built<Head>
    ensures { MakesHead (λ e. form.Except (Some e) bind) matches result }
{
    match matches {
        Built::Shallow(matches) => Built::Shallow(Head::Except {
            matches: Some(matches),
            bind,
        }),
        Built::TooDeep => Built::TooDeep,
    }
}

/// `def name(params) -> result:`
pub(crate) fn defining(
    alloc: Global,
    name: &Text,
    params: Built<Params>,
    kind: Built<Option<Expr>>,
) -> Result<Built<Head>, AllocError>
    ensures { IfOk result (MakesDef name.now params kind) }
{
    match both(params, kind) {
        Built::Shallow((params, result)) => Ok(Built::Shallow(Head::Def {
            name: name.copy(alloc)?,
            params,
            result,
        })),
        Built::TooDeep => Ok(Built::TooDeep),
    }
}

/// `class name(base):`
pub(crate) fn classing(
    alloc: Global,
    name: &Text,
    base: Built<Option<Expr>>,
) -> Result<Built<Head>, AllocError>
    ensures { IfOk result (MakesClass name.now base) }
{
    match base {
        Built::Shallow(base) => Ok(Built::Shallow(Head::Class {
            name: name.copy(alloc)?,
            base,
        })),
        Built::TooDeep => Ok(Built::TooDeep),
    }
}
