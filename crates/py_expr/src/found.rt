ghost use Rattle.std.specs.Prelude.{◌≡◌, Some, None, IfOk};
ghost use Rattle.py_phrases.specs.declared.phrase.Built.TheVariants as Built;
ghost use Rattle.py_expr.specs.Readings.{IsNext, built_on, both_built};

use py_lexer::token::Token;
use py_phrases::phrase::Built;
use py_tree::expression::Expr;
use sqlite_items::Boxed;
use std::alloc::{AllocError, Global};

/// What a reading at the front of tokens answers.
pub(crate) type Reading<'a, T> = Result<Option<Found<'a, T>>, AllocError>;

/// A thing that was read at the front of tokens, and what follows it.
#[derive(Drop)]
pub(crate) struct Found<'a, T> {
    pub(crate) built: Built<T>,
    pub(crate) rest: &'a [Token],
}

/// What was built, as what is there.
fn optional<T>(built: Built<T>) -> Built<Option<T>>
    ensures { result ≡ built_on Some built }
{
    match built {
        Built::Shallow(tree) => Built::Shallow(Some(tree)),
        Built::TooDeep => Built::TooDeep,
    }
}

/// What was built, in a box.
pub(crate) fn boxed<T: Drop>(alloc: Global, built: Built<T>) -> Result<Built<Boxed<T>>, AllocError>
    ensures { IfOk result (λ made. made ≡ built) }
{
    match built {
        Built::Shallow(tree) => Ok(Built::Shallow(Boxed::new(alloc, tree)?)),
        Built::TooDeep => Ok(Built::TooDeep),
    }
}

/// Both, where neither is too deep.
pub(crate) fn both<A: Drop, B: Drop>(first: Built<A>, second: Built<B>) -> Built<(A, B)>
    ensures { result ≡ both_built first second }
{
    match first {
        Built::Shallow(first) => beside(first, second),
        Built::TooDeep => Built::TooDeep,
    }
}

fn beside<A: Drop, B>(first: A, second: Built<B>) -> Built<(A, B)>
    ensures { result ≡ built_on (λ b. (first, b)) second }
{
    match second {
        Built::Shallow(second) => Built::Shallow((first, second)),
        Built::TooDeep => Built::TooDeep,
    }
}

/// The thing with the one that was to be read behind it.
pub(crate) fn with_next<'a, A: Drop, B: Drop>(
    thing: Built<A>,
    next: Reading<'a, B>,
) -> Reading<'a, (A, B)>
    ensures { IfOk result (IsNext thing next.entry) }
{
    match next? {
        Some(found) => Ok(Some(Found {
            built: both(thing, found.built),
            rest: found.rest,
        })),
        None => Ok(None),
    }
}

/// No expression.
pub(crate) fn absent(rest: &[Token]) -> Found<'_, Option<Expr>>
    ensures built { result.built ≡ Built.Shallow None }
    ensures rest { result.rest.now ≡ rest.now }
{
    Found {
        built: Built::Shallow(None),
        rest,
    }
}

/// The expression that was found.
pub(crate) fn present(found: Found<'_, Expr>) -> Found<'_, Option<Expr>>
    ensures built { result.built ≡ built_on Some found.entry.built }
    ensures rest { result.rest.now ≡ found.entry.rest.now }
{
    let Found { built, rest } = found;
    Found {
        built: optional(built),
        rest,
    }
}
