ghost use Rattle.std.specs.Prelude.{◌≡◌, [], ◌∷◌, Bool, false, IfOk, MatchOption};
ghost use Rattle.py_lexer.specs.declared.token.Token.TheVariants as token;
ghost use Rattle.py_phrases.specs.Grammar.{Tokens};
ghost use Rattle.py_phrases.specs.Tokens as t;
ghost use Rattle.py_expr.specs.ImportRuns as spec;

use crate::front::{after_mark, after_name};
use py_lexer::token::{Keyword, Mark, Token};
use py_tree::statement::{Import, Imported};
use py_tree::text::Text;
use std::alloc::{AllocError, Global};

/// Import items with commas between, and what follows them.
#[derive(Drop)]
struct ItemList<'a> {
    items: Imported,
    /// Whether a comma stands behind the last.
    comma: bool,
    rest: &'a [Token],
}

/// `"as" NAME`
fn alias_at(tokens: &[Token]) -> Option<(&Text, &[Token])>
    ensures { MatchOption result ((a : _) (r : Tokens) → tokens.now ≡ t.as_ ∷ token.Name a ∷ r → ⊥) (λ found. tokens.now ≡ t.as_ ∷ token.Name found.0.now ∷ found.1.now) }
{
    match tokens {
        [Token::Word(Keyword::As), Token::Name(alias), rest @ ..] => Some((alias, rest)),
        _ => None,
    }
}

/// `NAME ["as" NAME]`, and what follows it.
fn item_at<'a>(
    alloc: Global,
    tokens: &'a [Token],
) -> Result<Option<(Import, &'a [Token])>, AllocError>
    ensures { IfOk result (λ found. MatchOption found ((comma : Bool) → spec.items_at comma tokens.now ≡ spec.item_list [] comma tokens.now) (λ read. spec.IsItem tokens.now read.0 read.1.now)) }
{
    let Some((name, more)) = after_name(tokens) else {
        return Ok(None);
    };
    let name = name.copy(alloc)?;
    match alias_at(more) {
        Some((alias, rest)) => {
            let alias = Some(alias.copy(alloc)?);
            Ok(Some((Import { name, alias }, rest)))
        }
        None => Ok(Some((Import { name, alias: None }, more))),
    }
}

/// The import items at the front, as far as they go.
fn items_at<'a>(alloc: Global, tokens: &'a [Token]) -> Result<ItemList<'a>, AllocError>
    ensures { IfOk result (λ list. spec.item_list list.items list.comma list.rest.now ≡ spec.items_at false tokens.now) }
{
    let mut items = Imported::new(alloc);
    let mut comma = false;
    let mut rest = tokens;
    while let Some((item, more)) = item_at(alloc, rest)? {
        items.push(item)?;
        match after_mark(more, Mark::Comma) {
            Some(next) => {
                comma = true;
                rest = next;
            }
            None => {
                return Ok(ItemList {
                    items,
                    comma: false,
                    rest: more,
                });
            }
        }
    }
    Ok(ItemList { items, comma, rest })
}

/// `item {"," item}`, where nothing follows.
pub(crate) fn import_items(alloc: Global, tokens: &[Token]) -> Result<Option<Imported>, AllocError>
    ensures { IfOk result (λ found. spec.AreImported tokens.now found) }
{
    Ok(bare(items_at(alloc, tokens)?))
}

/// `item {"," item} | "(" item {"," item} [","] ")"`, where nothing follows.
pub(crate) fn taken(alloc: Global, tokens: &[Token]) -> Result<Option<Imported>, AllocError>
    ensures { IfOk result (λ found. spec.AreTaken tokens.now found) }
{
    match after_mark(tokens, Mark::LeftParen) {
        Some(rest) => Ok(in_parentheses(items_at(alloc, rest)?)),
        None => import_items(alloc, tokens),
    }
}

/// `item {"," item}`, where nothing follows.
fn bare(list: ItemList<'_>) -> Option<Imported>
    ensures { (s : Tokens) → spec.item_list list.entry.items list.entry.comma list.entry.rest.now ≡ spec.items_at false s → spec.AreImported s result }
{
    let ItemList { items, comma, rest } = list;
    if comma {
        return None;
    }
    all(items, rest)
}

/// `item {"," item} [","] ")"`, behind the `(`, where nothing follows.
fn in_parentheses(list: ItemList<'_>) -> Option<Imported>
    ensures { (s : Tokens) → spec.item_list list.entry.items list.entry.comma list.entry.rest.now ≡ spec.items_at false s → spec.AreTaken (t.left_paren ∷ s) result }
{
    let ItemList { items, rest, .. } = list;
    match after_mark(rest, Mark::RightParen) {
        Some(behind) => all(items, behind),
        None => None,
    }
}

/// The items, where there are some and nothing follows.
fn all(items: Imported, rest: &[Token]) -> Option<Imported>
    ensures { spec.AreAll items rest.now result }
{
    if items.len() == 0 {
        return None;
    }
    if !rest.is_empty() {
        return None;
    }
    Some(items)
}
