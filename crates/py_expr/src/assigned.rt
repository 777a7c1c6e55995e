ghost use Rattle.std.specs.Prelude.{◌≡◌, true, false, [], ◌∷◌, IfOk, MatchOption};
ghost use Rattle.py_lexer.specs.declared.token.Token.TheVariants as token;
ghost use Rattle.py_tree.specs.declared.operator.BinaryOp.{BinaryOp};
ghost use Rattle.py_phrases.specs.Grammar.{Tokens};
ghost use Rattle.py_phrases.specs.Tokens as t;
ghost use Rattle.py_expr.specs.Statements as spec;
ghost use Rattle.py_expr.specs.Lines.{Augmented};
ghost use Rattle.py_expr.specs.Statements.{Augments, BuildsPlace, Parts, StatementBehind};
ghost use Rattle.py_phrases.specs.Targets.{Place, Assigned};

use crate::found::both;
use crate::front::{after_mark, first_mark};
use crate::made::{assigning, augmenting, evaluating};
use crate::whole::{Whole, whole_list};
use py_lexer::token::{Mark, Token};
use py_phrases::phrase::{Built, Phrase};
use py_tree::expression::{Expr, Target};
use py_tree::operator::BinaryOp;
use py_tree::statement::StmtKind;
use std::alloc::Global;

/// The operator of an augmented assignment.
fn operator(mark: Mark) -> Option<BinaryOp>
    ensures { MatchOption result ((op : BinaryOp) → Augmented (token.Mark mark) op → ⊥) (λ op. Augmented (token.Mark mark) op) }
{
    match mark {
        Mark::PlusEqual => Some(BinaryOp::Add),
        Mark::MinusEqual => Some(BinaryOp::Sub),
        Mark::StarEqual => Some(BinaryOp::Mul),
        Mark::DoubleSlashEqual => Some(BinaryOp::FloorDiv),
        Mark::PercentEqual => Some(BinaryOp::Mod),
        _ => None,
    }
}

/// The operator at the front with what follows it, where one stands there.
fn after_operator(tokens: &[Token]) -> Option<(BinaryOp, &[Token])>
    ensures { MatchOption result ((op : BinaryOp) (r : Tokens) → Augments tokens.now op r → ⊥) (λ found. Augments tokens.now found.0 found.1.now) }
{
    let Some((mark, rest)) = first_mark(tokens) else {
        return None;
    };
    match operator(mark) {
        Some(op) => Some((op, rest)),
        None => None,
    }
}

/// Whether the target is a place, and no names.
fn is_place(target: &Built<Target>) -> bool
    ensures { result ≡ spec.is_place target.now }
{
    !matches!(target, Built::Shallow(Target::Names(_)))
}

/// The target, where it is a place.
fn only_place(target: Built<Target>) -> Option<Built<Target>>
    ensures { MatchOption result (spec.is_place target ≡ false) (λ place. (place ≡ target) × (spec.is_place target ≡ true)) }
{
    if is_place(&target) {
        Some(target)
    } else {
        None
    }
}

/// The place that the phrase is, if it is one.
fn place(alloc: Global, phrase: &Phrase) -> Whole<Target>
    ensures { IfOk result (λ built. BuildsPlace phrase.now built) }
{
    match phrase.target(alloc)? {
        Some(target) => Ok(only_place(target)),
        None => Ok(None),
    }
}

/// The target that the phrase is and the value that all the tokens are.
fn target_and_value(alloc: Global, phrase: &Phrase, tokens: &[Token]) -> Whole<(Target, Expr)>
    ensures { IfOk result (λ found. Parts Assigned phrase.now tokens.now found) }
{
    let Some(value) = whole_list(alloc, tokens)? else {
        return Ok(None);
    };
    match phrase.target(alloc)? {
        Some(target) => Ok(Some(both(target, value))),
        None => Ok(None),
    }
}

/// The place that the phrase is and the value that all the tokens are.
fn place_and_value(alloc: Global, phrase: &Phrase, tokens: &[Token]) -> Whole<(Target, Expr)>
    ensures { IfOk result (λ found. Parts Place phrase.now tokens.now found) }
{
    let Some(value) = whole_list(alloc, tokens)? else {
        return Ok(None);
    };
    match place(alloc, phrase)? {
        Some(place) => Ok(Some(both(place, value))),
        None => Ok(None),
    }
}

/// `target "=" L`
fn assignment(alloc: Global, phrase: &Phrase, value: &[Token]) -> Whole<StmtKind>
    ensures { IfOk result (λ found. StatementBehind phrase.now (t.equal ∷ value.now) found) }
{
    match target_and_value(alloc, phrase, value)? {
        Some(parts) => Ok(Some(assigning(parts))),
        None => Ok(None),
    }
}

/// `place AUG L`
fn augmentation(alloc: Global, phrase: &Phrase, op: BinaryOp, value: &[Token]) -> Whole<StmtKind>
    ensures { IfOk result (λ found. (s : Tokens) → Augments s op value.now → StatementBehind phrase.now s found) }
{
    match place_and_value(alloc, phrase, value)? {
        Some(parts) => Ok(Some(augmenting(parts, op))),
        None => Ok(None),
    }
}

/// The statement that begins with the phrase and isn't an expression.
fn assigned(alloc: Global, phrase: &Phrase) -> Whole<StmtKind>
    requires { phrase.now.rest.now ≡ [] → ⊥ }
    ensures { IfOk result (λ found. StatementBehind phrase.now phrase.now.rest.now found) }
{
    if let Some(value) = after_mark(phrase.rest, Mark::Equal) {
        return assignment(alloc, phrase, value);
    }
    match after_operator(phrase.rest) {
        Some((op, value)) => augmentation(alloc, phrase, op, value),
        None => Ok(None),
    }
}

/// `L | target "=" L | place AUG L`, where the phrase is the first part.
pub(crate) fn begun_by(alloc: Global, phrase: &Phrase) -> Whole<StmtKind>
    ensures { IfOk result (λ found. StatementBehind phrase.now phrase.now.rest.now found) }
{
    if phrase.rest.is_empty() {
        return Ok(Some(evaluating(phrase.expression(alloc)?)));
    }
    assigned(alloc, phrase)
}
