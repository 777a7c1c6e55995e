ghost use Rattle.std.specs.Prelude.{◌≡◌, IfOk, Some};
ghost use Rattle.py_phrases.specs.declared.phrase.Built.TheVariants as Built;
ghost use Rattle.py_tree.specs.Joined.{expression_of, maybe_of};
ghost use Rattle.py_tree.specs.Syntax as x;
ghost use Rattle.py_expr.specs.Lines.{Base};
ghost use Rattle.py_expr.specs.LineEnds.{Anything};
ghost use Rattle.py_expr.specs.Depth.{maybe_nesting};
ghost use Rattle.py_expr.specs.Readings.{BaseBehind, FoundAt};

use crate::expressions::named;
use crate::found::{Found, Reading, absent};
use crate::front::{after_closed_head, after_mark, after_name};
use py_lexer::token::{Mark, Token};
use py_phrases::phrase::Built;
use py_tree::expression::Expr;
use py_tree::text::Text;
use sqlite_items::Boxed;
use std::alloc::{AllocError, Global};

/// `["(" [NAME ["." NAME]] ")"] ":"`
pub(crate) fn base<'a>(alloc: Global, tokens: &'a [Token]) -> Reading<'a, Option<Expr>>
    ensures { IfOk result (λ found. FoundAt Base Anything maybe_of maybe_nesting tokens.now found) }
{
    let Some(inner) = after_mark(tokens, Mark::LeftParen) else {
        return match after_mark(tokens, Mark::Colon) {
            Some(rest) => Ok(Some(absent(rest))),
            None => Ok(None),
        };
    };
    if let Some((name, rest)) = after_name(inner) {
        return named_base(alloc, name, rest);
    }
    match after_closed_head(inner) {
        Some(rest) => Ok(Some(absent(rest))),
        None => Ok(None),
    }
}

/// `["." NAME] ")" ":"`, behind `(` and a name.
fn named_base<'a>(alloc: Global, name: &Text, tokens: &'a [Token]) -> Reading<'a, Option<Expr>>
    ensures { IfOk result (λ found. FoundAt (BaseBehind name.now) Anything maybe_of maybe_nesting tokens.now found) }
{
    let Some(more) = after_mark(tokens, Mark::Dot) else {
        return match after_closed_head(tokens) {
            Some(rest) => Ok(Some(a_base(named(alloc, name)?, rest))),
            None => Ok(None),
        };
    };
    let Some((member, behind)) = after_name(more) else {
        return Ok(None);
    };
    match after_closed_head(behind) {
        Some(rest) => Ok(Some(a_base(dotted(alloc, name, member)?, rest))),
        None => Ok(None),
    }
}

fn a_base(base: Expr, rest: &[Token]) -> Found<'_, Option<Expr>>
    ensures built { result.built ≡ Built.Shallow (Some base) }
    ensures rest { result.rest.now ≡ rest.now }
{
    Found {
        built: Built::Shallow(Some(base)),
        rest,
    }
}

fn dotted(alloc: Global, name: &Text, member: &Text) -> Result<Expr, AllocError>
    ensures { IfOk result (λ made. expression_of made ≡ x.Attr (x.Name name.now) member.now) }
{
    let object = Boxed::new(alloc, named(alloc, name)?)?;
    Ok(Expr::Attr(object, member.copy(alloc)?))
}
