ghost use Rattle.std.specs.Prelude.{◌≡◌, ◌∷◌, IfOk, MatchOption};
ghost use Rattle.py_lexer.specs.declared.token.Token.TheVariants as token;
ghost use Rattle.py_phrases.specs.Grammar.{Tokens};
ghost use Rattle.py_phrases.specs.Tokens as t;
ghost use Rattle.py_expr.specs.Statements.{HasNoWord, IsPlain, StatementAt};

use crate::annotated::{annotated_attribute, annotated_name};
use crate::assigned::begun_by;
use crate::front::{after_mark, after_name, first_word};
use crate::whole::{Whole, last};
use crate::worded::{imported, imported_from, raised, returned};
use py_lexer::token::{Keyword, Mark, Token};
use py_phrases::phrase::{Built, list_at};
use py_tree::statement::StmtKind;
use py_tree::text::Text;
use std::alloc::Global;

/// A simple statement (Python reference: simple statements).
pub(crate) fn statement(alloc: Global, tokens: &[Token]) -> Whole<StmtKind>
    ensures { IfOk result (λ found. StatementAt tokens.now found) }
{
    match first_word(tokens) {
        Some((word, rest)) => worded(alloc, tokens, word, rest),
        None => unworded(alloc, tokens),
    }
}

/// A statement that begins with a keyword.
fn worded(alloc: Global, tokens: &[Token], word: Keyword, rest: &[Token]) -> Whole<StmtKind>
    requires { tokens.now ≡ token.Word word ∷ rest.now }
    ensures { IfOk result (λ found. StatementAt tokens.now found) }
{
    match word {
        Keyword::Pass => Ok(last(Built::Shallow(StmtKind::Pass), rest)),
        Keyword::Break => Ok(last(Built::Shallow(StmtKind::Break), rest)),
        Keyword::Continue => Ok(last(Built::Shallow(StmtKind::Continue), rest)),
        Keyword::Return => returned(alloc, rest),
        Keyword::Raise => raised(alloc, rest),
        Keyword::Import => imported(alloc, rest),
        Keyword::From => imported_from(alloc, rest),
        _ => plain(alloc, tokens),
    }
}

/// A statement that begins with no keyword.
fn unworded(alloc: Global, tokens: &[Token]) -> Whole<StmtKind>
    requires { HasNoWord tokens.now }
    ensures { IfOk result (λ found. StatementAt tokens.now found) }
{
    match after_name(tokens) {
        Some((name, rest)) => named(alloc, tokens, name, rest),
        None => plain(alloc, tokens),
    }
}

/// `"." NAME ":"`
fn after_attribute(tokens: &[Token]) -> Option<(&Text, &[Token])>
    ensures { MatchOption result ((a : _) (r : Tokens) → tokens.now ≡ t.dot ∷ token.Name a ∷ t.colon ∷ r → ⊥) (λ found. tokens.now ≡ t.dot ∷ token.Name found.0.now ∷ t.colon ∷ found.1.now) }
{
    match tokens {
        [
            Token::Mark(Mark::Dot),
            Token::Name(name),
            Token::Mark(Mark::Colon),
            rest @ ..,
        ] => Some((name, rest)),
        _ => None,
    }
}

/// A statement that begins with a name.
fn named(alloc: Global, tokens: &[Token], name: &Text, rest: &[Token]) -> Whole<StmtKind>
    requires { tokens.now ≡ token.Name name.now ∷ rest.now }
    ensures { IfOk result (λ found. StatementAt tokens.now found) }
{
    if let Some(kind) = after_mark(rest, Mark::Colon) {
        return annotated_name(alloc, name, kind);
    }
    match after_attribute(rest) {
        Some((attribute, kind)) => annotated_attribute(alloc, name, attribute, kind),
        None => plain(alloc, tokens),
    }
}

/// A statement that begins with an expression.
fn plain(alloc: Global, tokens: &[Token]) -> Whole<StmtKind>
    requires { IsPlain tokens.now }
    ensures { IfOk result (λ found. StatementAt tokens.now found) }
{
    match list_at(alloc, tokens)? {
        Some(phrase) => begun_by(alloc, &phrase),
        None => Ok(None),
    }
}
