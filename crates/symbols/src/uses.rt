ghost use Rattle.std.specs.Prelude.{◌≡◌, ◌++◌, OnOk};
ghost use Rattle.py_tree.specs.Joined.{expression_of, expressions_of, keywords_of, maybe_of, pairs_of};
ghost use Rattle.symbols.specs.Contexts.{context_of};
ghost use Rattle.symbols.specs.StaticUses.{maybe_uses, use_at, uses, uses_in_all, uses_in_keywords, uses_in_pairs};

use crate::binding::StaticName;
use crate::context::Context;
use crate::static_use::{StaticUse, StaticUses};
use py_tree::expression::{Call, Expr, Keyword, Pair};
use sqlite_items::Boxed;
use std::alloc::AllocError;

/// Puts the uses of static names in an expression.
#[cycle(uses)]
pub(crate) fn put_uses(
    e: &Expr,
    line: u32,
    context: &Context<'_>,
    all: &mut StaticUses,
) -> Result<(), AllocError>
    ensures { OnOk result (all.new ≡ all.old ++ uses (context_of context.now) line (expression_of e.now)) }
{
    match e {
        Expr::Name(name) => put_use(line, context.static_of(name), all),
        Expr::Tuple(items) | Expr::List(items) => put_all(items.as_slice(), line, context, all),
        Expr::Dict(pairs) => put_pairs(pairs.as_slice(), line, context, all),
        Expr::Unary(_, e) | Expr::Not(e) | Expr::Attr(e, _) => {
            put_uses(e.get(), line, context, all)
        }
        Expr::Is { left, .. } => put_uses(left.get(), line, context, all),
        Expr::Binary(_, a, b) => {
            put_uses(a.get(), line, context, all)?;
            put_uses(b.get(), line, context, all)
        }
        Expr::Compare(_, a, b) => {
            put_uses(a.get(), line, context, all)?;
            put_uses(b.get(), line, context, all)
        }
        Expr::And(a, b) | Expr::Or(a, b) | Expr::Index(a, b) => {
            put_uses(a.get(), line, context, all)?;
            put_uses(b.get(), line, context, all)
        }
        Expr::Cond { test, yes, no } => {
            put_uses(yes.get(), line, context, all)?;
            put_uses(test.get(), line, context, all)?;
            put_uses(no.get(), line, context, all)
        }
        Expr::Call(call) => {
            let Call { callee, args, keys } = call.get();
            put_uses(callee, line, context, all)?;
            put_all(args.as_slice(), line, context, all)?;
            put_keywords(keys.as_slice(), line, context, all)
        }
        _ => Ok(()),
    }
}

#[cycle(uses)]
fn put_all(
    items: &[Expr],
    line: u32,
    context: &Context<'_>,
    all: &mut StaticUses,
) -> Result<(), AllocError>
    ensures { OnOk result (all.new ≡ all.old ++ uses_in_all (context_of context.now) line (expressions_of items.now)) }
{
    for item in items {
        put_uses(item, line, context, all)?;
    }
    Ok(())
}

#[cycle(uses)]
fn put_pairs(
    pairs: &[Pair],
    line: u32,
    context: &Context<'_>,
    all: &mut StaticUses,
) -> Result<(), AllocError>
    ensures { OnOk result (all.new ≡ all.old ++ uses_in_pairs (context_of context.now) line (pairs_of pairs.now)) }
{
    for pair in pairs {
        put_uses(&pair.key, line, context, all)?;
        put_uses(&pair.value, line, context, all)?;
    }
    Ok(())
}

#[cycle(uses)]
fn put_keywords(
    keys: &[Keyword],
    line: u32,
    context: &Context<'_>,
    all: &mut StaticUses,
) -> Result<(), AllocError>
    ensures { OnOk result (all.new ≡ all.old ++ uses_in_keywords (context_of context.now) line (keywords_of keys.now)) }
{
    for key in keys {
        put_uses(&key.value, line, context, all)?;
    }
    Ok(())
}

/// Puts those in an expression, if there is one.
pub(crate) fn put_any(
    e: &Option<Expr>,
    line: u32,
    context: &Context<'_>,
    all: &mut StaticUses,
) -> Result<(), AllocError>
    ensures { OnOk result (all.new ≡ all.old ++ maybe_uses (context_of context.now) line (maybe_of e.now)) }
{
    match e {
        Some(e) => put_uses(e, line, context, all),
        None => Ok(()),
    }
}

/// Puts those in the value of an annotated assignment, if it has one.
pub(crate) fn put_value(
    e: &Option<Boxed<Expr>>,
    line: u32,
    context: &Context<'_>,
    all: &mut StaticUses,
) -> Result<(), AllocError>
    ensures { OnOk result (all.new ≡ all.old ++ maybe_uses (context_of context.now) line (maybe_of e.now)) }
{
    match e {
        Some(e) => put_uses(e.get(), line, context, all),
        None => Ok(()),
    }
}

fn put_use(line: u32, bound: Option<StaticName>, all: &mut StaticUses) -> Result<(), AllocError>
    ensures { OnOk result (all.new ≡ all.old ++ use_at line bound) }
{
    match bound {
        Some(name) => all.push(StaticUse { line, name }),
        None => Ok(()),
    }
}
