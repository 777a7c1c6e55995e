ghost use Rattle.std.specs.Prelude.{IfOk};
ghost use Rattle.py_lexer.specs.declared.token.Keyword.TheVariants as word;
ghost use Rattle.py_expr.specs.Depth.{head_nesting};
ghost use Rattle.py_expr.specs.Forms.{head_of};
ghost use Rattle.py_expr.specs.Heads.{DefBehind, FoundBehind};
ghost use Rattle.py_expr.specs.LineEnds.{Anything};
ghost use Rattle.py_expr.specs.Readings.{FoundAt};

use crate::bases::base;
use crate::form::Head;
use crate::found::{Found, Reading};
use crate::front::{after_mark, after_name};
use crate::head_made::{classing, defining};
use crate::parameters::{parameters, result_kind};
use py_lexer::token::{Mark, Token};
use py_tree::text::Text;
use std::alloc::Global;

/// `NAME "(" [params] ")" ["->" E] ":"`, behind `def`.
pub(crate) fn def_head<'a>(alloc: Global, tokens: &'a [Token]) -> Reading<'a, Head>
    ensures { IfOk result (FoundBehind word.Def tokens.now) }
{
    let Some((name, rest)) = after_name(tokens) else {
        return Ok(None);
    };
    match after_mark(rest, Mark::LeftParen) {
        Some(rest) => def_of(alloc, name, rest),
        None => Ok(None),
    }
}

/// `[params] ")" ["->" E] ":"`, behind `def`, the name and `(`.
fn def_of<'a>(alloc: Global, name: &Text, tokens: &'a [Token]) -> Reading<'a, Head>
    ensures { IfOk result (λ found. FoundAt (DefBehind name.now) Anything head_of head_nesting tokens.now found) }
{
    let Some(params) = parameters(alloc, tokens)? else {
        return Ok(None);
    };
    match result_kind(alloc, params.rest)? {
        Some(kind) => Ok(Some(Found {
            built: defining(alloc, name, params.built, kind.built)?,
            rest: kind.rest,
        })),
        None => Ok(None),
    }
}

/// `NAME ["(" [NAME ["." NAME]] ")"] ":"`, behind `class`.
pub(crate) fn class_head<'a>(alloc: Global, tokens: &'a [Token]) -> Reading<'a, Head>
    ensures { IfOk result (FoundBehind word.Class tokens.now) }
{
    let Some((name, rest)) = after_name(tokens) else {
        return Ok(None);
    };
    match base(alloc, rest)? {
        Some(base) => Ok(Some(Found {
            built: classing(alloc, name, base.built)?,
            rest: base.rest,
        })),
        None => Ok(None),
    }
}
