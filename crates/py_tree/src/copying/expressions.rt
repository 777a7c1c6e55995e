ghost use Rattle.std.specs.Prelude.{◌≡◌, IfOk};

use super::Duplicate;
use crate::expression::{Call, Expr, Exprs, Keyword, Keywords, Pair, Pairs, Param, Target};
use sqlite_items::Boxed;
use std::alloc::{AllocError, Global};

impl Expr {
    /// An equal expression. The stack that it takes is as deep as the expression.
    #[cycle(copy_expr)]
    pub fn copy(&self, alloc: Global) -> Result<Expr, AllocError>
        ensures equal { IfOk result (λ copy. copy ≡ self.now) }
    {
        match self {
            Expr::Nil => Ok(Expr::Nil),
            Expr::True => Ok(Expr::True),
            Expr::False => Ok(Expr::False),
            Expr::Int(n) => Ok(Expr::Int(*n)),
            Expr::Str(text) => Ok(Expr::Str(text.copy(alloc)?)),
            Expr::Name(name) => Ok(Expr::Name(name.copy(alloc)?)),
            Expr::Tuple(items) => Ok(Expr::Tuple(copy_all(alloc, items.as_slice())?)),
            Expr::List(items) => Ok(Expr::List(copy_all(alloc, items.as_slice())?)),
            Expr::Dict(pairs) => Ok(Expr::Dict(copy_pairs(alloc, pairs.as_slice())?)),
            Expr::Unary(op, e) => Ok(Expr::Unary(*op, copy_boxed(alloc, e)?)),
            Expr::Binary(op, a, b) => {
                Ok(Expr::Binary(*op, copy_boxed(alloc, a)?, copy_boxed(alloc, b)?))
            }
            Expr::Compare(op, a, b) => {
                Ok(Expr::Compare(*op, copy_boxed(alloc, a)?, copy_boxed(alloc, b)?))
            }
            Expr::Is {
                negated,
                left,
                right,
            } => Ok(Expr::Is {
                negated: *negated,
                left: copy_boxed(alloc, left)?,
                right: *right,
            }),
            Expr::Not(e) => Ok(Expr::Not(copy_boxed(alloc, e)?)),
            Expr::And(a, b) => Ok(Expr::And(copy_boxed(alloc, a)?, copy_boxed(alloc, b)?)),
            Expr::Or(a, b) => Ok(Expr::Or(copy_boxed(alloc, a)?, copy_boxed(alloc, b)?)),
            Expr::Cond { test, yes, no } => Ok(Expr::Cond {
                test: copy_boxed(alloc, test)?,
                yes: copy_boxed(alloc, yes)?,
                no: copy_boxed(alloc, no)?,
            }),
            Expr::Attr(e, name) => Ok(Expr::Attr(copy_boxed(alloc, e)?, name.copy(alloc)?)),
            Expr::Index(e, i) => Ok(Expr::Index(copy_boxed(alloc, e)?, copy_boxed(alloc, i)?)),
            Expr::Call(call) => Ok(Expr::Call(copy_call(alloc, call)?)),
        }
    }
}

#[cycle(copy_expr)]
fn copy_boxed(alloc: Global, e: &Boxed<Expr>) -> Result<Boxed<Expr>, AllocError>
    ensures { IfOk result (λ copy. copy ≡ e.now) }
{
    Boxed::new(alloc, e.get().copy(alloc)?)
}

#[cycle(copy_expr)]
fn copy_call(alloc: Global, call: &Boxed<Call>) -> Result<Boxed<Call>, AllocError>
    ensures { IfOk result (λ copy. copy ≡ call.now) }
{
    let Call { callee, args, keys } = call.get();
    let copy = Call {
        callee: callee.copy(alloc)?,
        args: copy_all(alloc, args.as_slice())?,
        keys: copy_keywords(alloc, keys.as_slice())?,
    };
    Boxed::new(alloc, copy)
}

#[cycle(copy_expr)]
fn copy_all(alloc: Global, items: &[Expr]) -> Result<Exprs, AllocError>
    ensures { IfOk result (λ copy. copy ≡ items.now) }
{
    let mut copy = Exprs::new(alloc);
    for item in items {
        copy.push(item.copy(alloc)?)?;
    }
    Ok(copy)
}

#[cycle(copy_expr)]
fn copy_pairs(alloc: Global, pairs: &[Pair]) -> Result<Pairs, AllocError>
    ensures { IfOk result (λ copy. copy ≡ pairs.now) }
{
    let mut copy = Pairs::new(alloc);
    for pair in pairs {
        copy.push(Pair {
            key: pair.key.copy(alloc)?,
            value: pair.value.copy(alloc)?,
        })?;
    }
    Ok(copy)
}

#[cycle(copy_expr)]
fn copy_keywords(alloc: Global, keywords: &[Keyword]) -> Result<Keywords, AllocError>
    ensures { IfOk result (λ copy. copy ≡ keywords.now) }
{
    let mut copy = Keywords::new(alloc);
    for keyword in keywords {
        copy.push(Keyword {
            name: keyword.name.copy(alloc)?,
            value: keyword.value.copy(alloc)?,
        })?;
    }
    Ok(copy)
}

impl Duplicate for Expr {
    fn duplicate(&self, alloc: Global) -> Result<Expr, AllocError> {
        self.copy(alloc)
    }
}

impl Duplicate for Param {
    fn duplicate(&self, alloc: Global) -> Result<Param, AllocError> {
        Ok(Param {
            name: self.name.copy(alloc)?,
            kind: self.kind.duplicate(alloc)?,
            default: self.default.duplicate(alloc)?,
        })
    }
}

impl Duplicate for Target {
    fn duplicate(&self, alloc: Global) -> Result<Target, AllocError> {
        match self {
            Target::Name(name) => Ok(Target::Name(name.copy(alloc)?)),
            Target::Attr(e, name) => Ok(Target::Attr(e.duplicate(alloc)?, name.copy(alloc)?)),
            Target::Index(e, i) => Ok(Target::Index(e.duplicate(alloc)?, i.duplicate(alloc)?)),
            Target::Names(names) => Ok(Target::Names(names.duplicate(alloc)?)),
        }
    }
}
