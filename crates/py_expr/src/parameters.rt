ghost use Rattle.std.specs.Prelude.{◌≡◌, ◌∷◌, ◌++◌, [], List, IfOk};
ghost use Rattle.py_tree.specs.Joined.{maybe_of, param_of};
ghost use Rattle.py_tree.specs.Syntax.{Param as Parsed};
ghost use Rattle.py_expr.specs.Lines.{Annotation, Default, Result};
ghost use Rattle.py_expr.specs.LineEnds.{Anything, EndsAnnotation, EndsParameter};
ghost use Rattle.py_expr.specs.Depth.{maybe_nesting, param_nesting, params_nesting};
ghost use Rattle.py_expr.specs.Forms.{params_of};
ghost use Rattle.py_expr.specs.Readings.{FoundAt, IsBuilt, IsClosed};
ghost use Rattle.py_expr.specs.Signatures as spec;

use crate::expressions::{expression, expression_before_colon};
use crate::found::{Found, Reading, absent, both, present};
use crate::front::{after_mark, after_name};
use py_lexer::token::{Mark, Token};
use py_phrases::phrase::Built;
use py_tree::expression::{Expr, Param, Params};
use py_tree::text::Text;
use std::alloc::{AllocError, Global};

/// `[":" E]`
fn annotation<'a>(alloc: Global, tokens: &'a [Token]) -> Reading<'a, Option<Expr>>
    ensures { IfOk result (λ found. FoundAt Annotation EndsAnnotation maybe_of maybe_nesting tokens.now found) }
{
    let Some(rest) = after_mark(tokens, Mark::Colon) else {
        return Ok(Some(absent(tokens)));
    };
    match expression(alloc, rest)? {
        Some(found) => Ok(Some(present(found))),
        None => Ok(None),
    }
}

/// `["=" E]`
fn default<'a>(alloc: Global, tokens: &'a [Token]) -> Reading<'a, Option<Expr>>
    ensures { IfOk result (λ found. FoundAt Default EndsParameter maybe_of maybe_nesting tokens.now found) }
{
    let Some(rest) = after_mark(tokens, Mark::Equal) else {
        return Ok(Some(absent(tokens)));
    };
    match expression(alloc, rest)? {
        Some(found) => Ok(Some(present(found))),
        None => Ok(None),
    }
}

/// `["->" E] ":"`
pub(crate) fn result_kind<'a>(alloc: Global, tokens: &'a [Token]) -> Reading<'a, Option<Expr>>
    ensures { IfOk result (λ found. FoundAt Result Anything maybe_of maybe_nesting tokens.now found) }
{
    if let Some(rest) = after_mark(tokens, Mark::Colon) {
        return Ok(Some(absent(rest)));
    }
    let Some(rest) = after_mark(tokens, Mark::RightArrow) else {
        return Ok(None);
    };
    match expression_before_colon(alloc, rest)? {
        Some(found) => Ok(Some(present(found))),
        None => Ok(None),
    }
}

/// A parameter that was read, and what follows it.
#[derive(Drop)]
struct ReadParam<'a> {
    built: Built<Param>,
    /// Whether it has a default, also where that is too deep to be built.
    has_default: bool,
    rest: &'a [Token],
}

fn begins_default(tokens: &[Token]) -> bool
    ensures { result ≡ spec.begins_default tokens.now }
{
    matches!(tokens, [Token::Mark(Mark::Equal), ..])
}

/// `NAME [":" E] ["=" E]`
fn parameter<'a>(alloc: Global, tokens: &'a [Token]) -> Result<Option<ReadParam<'a>>, AllocError>
    ensures { IfOk result (spec.ParamAt tokens.now) }
{
    let Some((name, rest)) = after_name(tokens) else {
        return Ok(None);
    };
    let Some(kind) = annotation(alloc, rest)? else {
        return Ok(None);
    };
    let Some(default) = default(alloc, kind.rest)? else {
        return Ok(None);
    };
    Ok(Some(ReadParam {
        built: built_parameter(alloc, name, kind.built, default.built)?,
        has_default: begins_default(kind.rest),
        rest: default.rest,
    }))
}

fn built_parameter(
    alloc: Global,
    name: &Text,
    kind: Built<Option<Expr>>,
    default: Built<Option<Expr>>,
) -> Result<Built<Param>, AllocError>
    ensures { IfOk result (λ built. (k d : _) → IsBuilt maybe_of maybe_nesting k kind → IsBuilt maybe_of maybe_nesting d default → IsBuilt param_of param_nesting (record { name = name.now; kind = k; default = d }) built) }
{
    match both(kind, default) {
        Built::Shallow((kind, default)) => Ok(Built::Shallow(Param {
            name: name.copy(alloc)?,
            kind,
            default,
        })),
        Built::TooDeep => Ok(Built::TooDeep),
    }
}

/// `{param ","} [param] ")"`, with the defaults last.
pub(crate) fn parameters<'a>(alloc: Global, tokens: &'a [Token]) -> Reading<'a, Params>
    ensures { IfOk result (λ found. FoundAt spec.Signature Anything params_of params_nesting tokens.now found) }
{
    let mut params = Built::Shallow(Params::new(alloc));
    let mut defaults = false;
    let mut rest = tokens;
    loop {
        if let Some(behind) = after_mark(rest, Mark::RightParen) {
            return Ok(Some(Found {
                built: params,
                rest: behind,
            }));
        }
        let Some(read) = parameter(alloc, rest)? else {
            return Ok(None);
        };
        params = pushed(params, read.built)?;
        if defaults && !read.has_default {
            return Ok(None);
        }
        defaults = read.has_default;
        let Some(more) = after_mark(read.rest, Mark::Comma) else {
            return Ok(closed(params, read.rest));
        };
        rest = more;
    }
}

/// The parameters, where `)` follows them.
fn closed(params: Built<Params>, tokens: &[Token]) -> Option<Found<'_, Params>>
    ensures { IsClosed params tokens.now result }
{
    match after_mark(tokens, Mark::RightParen) {
        Some(rest) => Some(Found {
            built: params,
            rest,
        }),
        None => None,
    }
}

/// The parameters with one more.
fn pushed(params: Built<Params>, param: Built<Param>) -> Result<Built<Params>, AllocError>
    ensures { IfOk result (λ built. (ps : List Parsed) (p : Parsed) → IsBuilt params_of params_nesting ps params → IsBuilt param_of param_nesting p param → IsBuilt params_of params_nesting (ps ++ p ∷ []) built) }
{
    match both(params, param) {
        Built::Shallow((mut params, param)) => {
            params.push(param)?;
            Ok(Built::Shallow(params))
        }
        Built::TooDeep => Ok(Built::TooDeep),
    }
}
