ghost use Rattle.std.specs.Prelude.{◌≡◌, ◌∷◌, IfOk, MatchOption};
ghost use Rattle.py_lexer.specs.declared.token.Token.TheVariants as token;
ghost use Rattle.py_phrases.specs.Grammar.{Tokens};
ghost use Rattle.py_phrases.specs.Tokens as t;
ghost use Rattle.py_expr.specs.Statements.{FromAt, StatementAt};

use crate::imports::{import_items, taken};
use crate::made::{raising, returning};
use crate::whole::{Whole, whole_expression, whole_list};
use py_lexer::token::{Keyword, Token};
use py_phrases::phrase::Built;
use py_tree::statement::{Imported, StmtKind};
use py_tree::text::Text;
use std::alloc::{AllocError, Global};

/// `[L]`, behind `return`.
pub(crate) fn returned(alloc: Global, tokens: &[Token]) -> Whole<StmtKind>
    ensures { IfOk result (λ found. StatementAt (t.return_ ∷ tokens.now) found) }
{
    if tokens.is_empty() {
        return Ok(Some(Built::Shallow(StmtKind::Return(None))));
    }
    match whole_list(alloc, tokens)? {
        Some(value) => Ok(Some(returning(value))),
        None => Ok(None),
    }
}

/// `[E]`, behind `raise`.
pub(crate) fn raised(alloc: Global, tokens: &[Token]) -> Whole<StmtKind>
    ensures { IfOk result (λ found. StatementAt (t.raise_ ∷ tokens.now) found) }
{
    if tokens.is_empty() {
        return Ok(Some(Built::Shallow(StmtKind::Raise(None))));
    }
    match whole_expression(alloc, tokens)? {
        Some(value) => Ok(Some(raising(value))),
        None => Ok(None),
    }
}

/// `item {"," item}`, behind `import`.
pub(crate) fn imported(alloc: Global, tokens: &[Token]) -> Whole<StmtKind>
    ensures { IfOk result (λ found. StatementAt (t.import_ ∷ tokens.now) found) }
{
    match import_items(alloc, tokens)? {
        Some(names) => Ok(Some(Built::Shallow(StmtKind::Import(names)))),
        None => Ok(None),
    }
}

/// What follows `NAME "import"`, with the name.
fn after_module(tokens: &[Token]) -> Option<(&Text, &[Token])>
    ensures { MatchOption result ((n : _) (r : Tokens) → tokens.now ≡ token.Name n ∷ t.import_ ∷ r → ⊥) (λ found. tokens.now ≡ token.Name found.0.now ∷ t.import_ ∷ found.1.now) }
{
    match tokens {
        [Token::Name(module), Token::Word(Keyword::Import), rest @ ..] => Some((module, rest)),
        _ => None,
    }
}

/// `NAME "import" ..`
fn module_and_names(alloc: Global, tokens: &[Token]) -> Result<Option<(Text, Imported)>, AllocError>
    ensures { IfOk result (λ found. FromAt tokens.now found) }
{
    let Some((module, rest)) = after_module(tokens) else {
        return Ok(None);
    };
    let name = module.copy(alloc)?;
    match taken(alloc, rest)? {
        Some(names) => Ok(Some((name, names))),
        None => Ok(None),
    }
}

/// `NAME "import" ..`, behind `from`.
pub(crate) fn imported_from(alloc: Global, tokens: &[Token]) -> Whole<StmtKind>
    ensures { IfOk result (λ found. StatementAt (t.from_ ∷ tokens.now) found) }
{
    match module_and_names(alloc, tokens)? {
        Some((module, names)) => Ok(Some(Built::Shallow(StmtKind::From { module, names }))),
        None => Ok(None),
    }
}
