ghost use Rattle.std.specs.Prelude.{IfOk};
ghost use Rattle.py_lexer.specs.declared.token.Keyword.TheVariants as word;
ghost use Rattle.py_expr.specs.Depth.{head_nesting};
ghost use Rattle.py_expr.specs.Forms.{head_of};
ghost use Rattle.py_expr.specs.Heads.{ExceptBehind, FoundBehind, IsBare, test_word};
ghost use Rattle.py_expr.specs.LineEnds.{Anything};
ghost use Rattle.py_expr.specs.Lines.{HeadAt};
ghost use Rattle.py_expr.specs.Readings.{FoundAt};

use crate::expressions::{expression, expression_before_colon, list_before_colon};
use crate::for_names::names_before_in;
use crate::form::Head;
use crate::found::{Found, Reading, with_next};
use crate::front::{after_bound_name, after_mark, first_word};
use crate::head_definitions::{class_head, def_head};
use crate::head_made::{catching, looping, testing};
use py_lexer::token::{Keyword, Mark, Token};
use py_phrases::phrase::Built;
use py_tree::expression::Expr;
use std::alloc::Global;

/// The head of a block at the front (Python reference: compound statements).
pub(crate) fn head<'a>(alloc: Global, tokens: &'a [Token]) -> Reading<'a, Head>
    ensures { IfOk result (λ found. FoundAt HeadAt Anything head_of head_nesting tokens.now found) }
{
    match first_word(tokens) {
        Some((word, rest)) => head_behind(alloc, word, rest),
        None => Ok(None),
    }
}

/// The head that begins with the word.
fn head_behind<'a>(alloc: Global, word: Keyword, tokens: &'a [Token]) -> Reading<'a, Head>
    ensures { IfOk result (FoundBehind word tokens.now) }
{
    match word {
        Keyword::If => test_head(alloc, Tested::If, tokens),
        Keyword::Elif => test_head(alloc, Tested::Elif, tokens),
        Keyword::Else => Ok(bare_head(Head::Else, tokens)),
        Keyword::While => test_head(alloc, Tested::While, tokens),
        Keyword::For => for_head(alloc, tokens),
        Keyword::Try => Ok(bare_head(Head::Try, tokens)),
        Keyword::Except => except_head(alloc, tokens),
        Keyword::Def => def_head(alloc, tokens),
        Keyword::Class => class_head(alloc, tokens),
        _ => Ok(None),
    }
}

/// The heads that have a test.
#[derive(Clone, Copy)]
pub(crate) enum Tested {
    If,
    Elif,
    While,
}

/// `E ":"`, behind the word.
fn test_head<'a>(alloc: Global, head: Tested, tokens: &'a [Token]) -> Reading<'a, Head>
    ensures { IfOk result (FoundBehind (test_word head) tokens.now) }
{
    match expression_before_colon(alloc, tokens)? {
        Some(found) => Ok(Some(Found {
            built: testing(head, found.built),
            rest: found.rest,
        })),
        None => Ok(None),
    }
}

/// The head that has no parts, where `":"` follows its word.
fn bare_head<T: Drop>(head: T, tokens: &[Token]) -> Option<Found<'_, T>>
    ensures { IsBare head tokens.now result }
{
    match after_mark(tokens, Mark::Colon) {
        Some(rest) => Some(Found {
            built: Built::Shallow(head),
            rest,
        }),
        None => None,
    }
}

/// `names "in" L ":"`, behind `for`.
fn for_head<'a>(alloc: Global, tokens: &'a [Token]) -> Reading<'a, Head>
    ensures { IfOk result (FoundBehind word.For tokens.now) }
{
    let Some(target) = names_before_in(alloc, tokens)? else {
        return Ok(None);
    };
    let items = list_before_colon(alloc, target.rest);
    match with_next(target.built, items)? {
        Some(parts) => {
            let Found { built, rest } = parts;
            let built = looping(alloc, built)?;
            Ok(Some(Found { built, rest }))
        }
        None => Ok(None),
    }
}

/// `[E ["as" NAME]] ":"`, behind `except`.
fn except_head<'a>(alloc: Global, tokens: &'a [Token]) -> Reading<'a, Head>
    ensures { IfOk result (FoundBehind word.Except tokens.now) }
{
    if let Some(rest) = after_mark(tokens, Mark::Colon) {
        let head = Head::Except {
            matches: None,
            bind: None,
        };
        return Ok(Some(Found {
            built: Built::Shallow(head),
            rest,
        }));
    }
    match expression(alloc, tokens)? {
        Some(found) => except_of(alloc, found),
        None => Ok(None),
    }
}

/// `["as" NAME] ":"`, behind the expression.
fn except_of<'a>(alloc: Global, matches: Found<'a, Expr>) -> Reading<'a, Head>
    ensures { IfOk result (ExceptBehind matches.entry.built matches.entry.rest.now) }
{
    if let Some(rest) = after_mark(matches.rest, Mark::Colon) {
        return Ok(Some(Found {
            built: catching(matches.built, None),
            rest,
        }));
    }
    match after_bound_name(matches.rest) {
        Some((name, rest)) => {
            let name = name.copy(alloc)?;
            Ok(Some(Found {
                built: catching(matches.built, Some(name)),
                rest,
            }))
        }
        None => Ok(None),
    }
}
