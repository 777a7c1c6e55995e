ghost use Rattle.std.specs.Prelude.{◌≡◌, IfOk};
ghost use Rattle.py_tree.specs.Joined.{expression_of};
ghost use Rattle.py_tree.specs.Nesting.{nesting};
ghost use Rattle.py_tree.specs.Syntax as x;
ghost use Rattle.py_phrases.specs.Grammar.{E, L, Spells};
ghost use Rattle.py_phrases.specs.Ends.{IsEnd};
ghost use Rattle.py_expr.specs.LineEnds.{Anything};
ghost use Rattle.py_expr.specs.Readings.{FoundAt, BeforeColon, ListBeforeColon};

use crate::found::{Found, Reading};
use crate::front::after_mark;
use py_lexer::token::{Mark, Token};
use py_phrases::phrase::{expression_at, list_at};
use py_tree::expression::Expr;
use py_tree::text::Text;
use std::alloc::{AllocError, Global};

/// The expression that is a name.
pub(crate) fn named(alloc: Global, name: &Text) -> Result<Expr, AllocError>
    ensures { IfOk result (λ made. expression_of made ≡ x.Name name.now) }
{
    Ok(Expr::Name(name.copy(alloc)?))
}

/// The expression at the front.
pub(crate) fn expression<'a>(alloc: Global, tokens: &'a [Token]) -> Reading<'a, Expr>
    ensures { IfOk result (λ found. FoundAt (Spells E) (IsEnd E) expression_of nesting tokens.now found) }
{
    match expression_at(alloc, tokens)? {
        Some(phrase) => Ok(Some(Found {
            built: phrase.expression(alloc)?,
            rest: phrase.rest,
        })),
        None => Ok(None),
    }
}

/// The expression or tuple at the front.
pub(crate) fn list<'a>(alloc: Global, tokens: &'a [Token]) -> Reading<'a, Expr>
    ensures { IfOk result (λ found. FoundAt (Spells L) (IsEnd L) expression_of nesting tokens.now found) }
{
    match list_at(alloc, tokens)? {
        Some(phrase) => Ok(Some(Found {
            built: phrase.expression(alloc)?,
            rest: phrase.rest,
        })),
        None => Ok(None),
    }
}

/// `E ":"`
pub(crate) fn expression_before_colon<'a>(alloc: Global, tokens: &'a [Token]) -> Reading<'a, Expr>
    ensures { IfOk result (λ found. FoundAt BeforeColon Anything expression_of nesting tokens.now found) }
{
    let Some(found) = expression(alloc, tokens)? else {
        return Ok(None);
    };
    match after_mark(found.rest, Mark::Colon) {
        Some(rest) => Ok(Some(Found {
            built: found.built,
            rest,
        })),
        None => Ok(None),
    }
}

/// `L ":"`
pub(crate) fn list_before_colon<'a>(alloc: Global, tokens: &'a [Token]) -> Reading<'a, Expr>
    ensures { IfOk result (λ found. FoundAt ListBeforeColon Anything expression_of nesting tokens.now found) }
{
    let Some(found) = list(alloc, tokens)? else {
        return Ok(None);
    };
    match after_mark(found.rest, Mark::Colon) {
        Some(rest) => Ok(Some(Found {
            built: found.built,
            rest,
        })),
        None => Ok(None),
    }
}
