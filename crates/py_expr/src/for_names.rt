ghost use Rattle.std.specs.Prelude.{◌≡◌, ◌∷◌, IfOk, false};
ghost use Rattle.py_phrases.specs.Tokens as t;
ghost use Rattle.std.specs.Option.{option_map};
ghost use Rattle.py_tree.specs.Joined.{target_of};
ghost use Rattle.py_phrases.specs.Grammar.{Tokens};
ghost use Rattle.py_expr.specs.LineEnds.{Anything};
ghost use Rattle.py_expr.specs.Runs as spec;
ghost use Rattle.py_expr.specs.Readings.{FoundAt, BeforeIn, InParentheses};
ghost use Rattle.py_phrases.specs.Targets.{target_nesting};

use crate::found::{Found, Reading};
use crate::front::{after_mark, after_name, after_word};
use py_lexer::token::{Keyword, Mark, Token};
use py_phrases::phrase::Built;
use py_tree::expression::{Target, Texts};
use std::alloc::{AllocError, Global};

/// Names with commas between, and what follows them.
#[derive(Drop)]
pub(crate) struct NameList<'a> {
    pub(crate) names: Texts,
    /// Whether a comma stands behind the last.
    pub(crate) comma: bool,
    pub(crate) rest: &'a [Token],
}

/// The names at the front, as far as they go.
pub(crate) fn names_at<'a>(alloc: Global, tokens: &'a [Token]) -> Result<NameList<'a>, AllocError>
    ensures { IfOk result (λ list. spec.name_list list.names list.comma list.rest.now ≡ spec.names_at false tokens.now) }
{
    let mut names = Texts::new(alloc);
    let mut comma = false;
    let mut rest = tokens;
    while let Some((name, more)) = after_name(rest) {
        names.push(name.copy(alloc)?)?;
        match after_mark(more, Mark::Comma) {
            Some(next) => {
                comma = true;
                rest = next;
            }
            None => {
                return Ok(NameList {
                    names,
                    comma: false,
                    rest: more,
                });
            }
        }
    }
    Ok(NameList { names, comma, rest })
}

/// The targets of a `for` up to its `in`, and what follows that: `names "in"`.
pub(crate) fn names_before_in<'a>(alloc: Global, tokens: &'a [Token]) -> Reading<'a, Target>
    ensures { IfOk result (λ found. FoundAt BeforeIn Anything target_of target_nesting tokens.now found) }
{
    match after_mark(tokens, Mark::LeftParen) {
        Some(rest) => Ok(in_parentheses(names_at(alloc, rest)?)),
        None => Ok(bare(names_at(alloc, tokens)?)),
    }
}

/// `many ")" "in"`
fn in_parentheses(list: NameList<'_>) -> Option<Found<'_, Target>>
    ensures { (s : Tokens) → spec.name_list list.entry.names list.entry.comma list.entry.rest.now ≡ spec.names_at false s → FoundAt InParentheses Anything target_of target_nesting s result }
{
    let NameList { names, rest, .. } = list;
    if names.len() < 2 {
        return None;
    }
    let Some(rest) = after_mark(rest, Mark::RightParen) else {
        return None;
    };
    match after_word(rest, Keyword::In) {
        Some(rest) => Some(Found {
            built: Built::Shallow(Target::Names(names)),
            rest,
        }),
        None => None,
    }
}

/// `NAME "in" | many "in"`
fn bare(list: NameList<'_>) -> Option<Found<'_, Target>>
    ensures { (s : Tokens) → ((r : Tokens) → s ≡ t.left_paren ∷ r → ⊥) → spec.name_list list.entry.names list.entry.comma list.entry.rest.now ≡ spec.names_at false s → FoundAt BeforeIn Anything target_of target_nesting s result }
{
    let NameList { names, comma, rest } = list;
    let Some(rest) = after_word(rest, Keyword::In) else {
        return None;
    };
    match target_from(names, comma) {
        Some(target) => Some(Found {
            built: Built::Shallow(target),
            rest,
        }),
        None => None,
    }
}

/// One name without a comma behind it, or several.
fn target_from(names: Texts, comma: bool) -> Option<Target>
    ensures { option_map target_of result ≡ spec.target_from comma names }
{
    let mut names = names;
    if names.len() > 1 {
        return Some(Target::Names(names));
    }
    let only = names.pop()?;
    if comma {
        return None;
    }
    Some(Target::Name(only))
}
