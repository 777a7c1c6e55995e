ghost use Rattle.std.specs.Prelude.{◌≡◌};
ghost use Rattle.py_tree.specs.Joined.{expression_of, expressions_of, keywords_of, maybe_of, pairs_of};
ghost use Rattle.symbols.specs.Contexts.{context_of};
ghost use Rattle.symbols.specs.SpecialNames as spec;
ghost use Rattle.symbols.specs.SpecialNames.{all_special_in, arguments_special, argument_use, casts, keywords_special, maybe_special, pairs_special, special};

use crate::context::{Context, Use};
use crate::words::is_word;
use py_tree::expression::{Call, Expr, Keyword, Pair};
use sqlite_items::Boxed;

/// Whether a name stands in the expression that may not stand there.
#[cycle(special)]
pub(crate) fn is_faulty(e: &Expr, context: &Context<'_>, around: Use) -> bool
    ensures { result ≡ special (context_of context.now) around (expression_of e.now) }
{
    let within = around.as_part();
    match e {
        Expr::Nil | Expr::True | Expr::False | Expr::Int(_) | Expr::Str(_) => false,
        Expr::Name(name) => {
            context.forbids_read(name) || around.misplaces(context.static_of(name))
        }
        Expr::Tuple(items) | Expr::List(items) => any_faulty(items.as_slice(), context, within),
        Expr::Dict(pairs) => any_pair_faulty(pairs.as_slice(), context, within),
        Expr::Unary(_, e) | Expr::Not(e) => is_faulty(e.get(), context, within),
        Expr::Is { left, .. } => is_faulty(left.get(), context, within),
        Expr::Binary(_, a, b) => {
            is_faulty(a.get(), context, within) || is_faulty(b.get(), context, within)
        }
        Expr::Compare(_, a, b) => {
            is_faulty(a.get(), context, within) || is_faulty(b.get(), context, within)
        }
        Expr::And(a, b) | Expr::Or(a, b) | Expr::Index(a, b) => {
            is_faulty(a.get(), context, within) || is_faulty(b.get(), context, within)
        }
        Expr::Cond { test, yes, no } => {
            is_faulty(test.get(), context, within)
                || is_faulty(yes.get(), context, within)
                || is_faulty(no.get(), context, within)
        }
        Expr::Attr(e, name) => {
            context.forbids_attribute(name)
                || (!(around.called && context.in_method && is_super(e.get()))
                    && is_faulty(e.get(), context, within))
        }
        Expr::Call(call) => {
            let Call { callee, args, keys } = call.get();
            let first = argument_use(casts(callee, context), within);
            is_faulty(callee, context, around.as_callee())
                || any_argument_faulty(args.as_slice(), first, context, within)
                || any_keyword_faulty(keys.as_slice(), context, within)
        }
    }
}

#[cycle(special)]
fn any_faulty(items: &[Expr], context: &Context<'_>, around: Use) -> bool
    ensures { result ≡ all_special_in (context_of context.now) around (expressions_of items.now) }
{
    for item in items {
        if is_faulty(item, context, around) {
            return true;
        }
    }
    false
}

/// The first argument has surroundings of its own.
#[cycle(special)]
fn any_argument_faulty(args: &[Expr], first: Use, context: &Context<'_>, around: Use) -> bool
    ensures { result ≡ arguments_special first (context_of context.now) around (expressions_of args.now) }
{
    let mut here = first;
    for arg in args {
        if is_faulty(arg, context, here) {
            return true;
        }
        here = around;
    }
    false
}

#[cycle(special)]
fn any_pair_faulty(pairs: &[Pair], context: &Context<'_>, around: Use) -> bool
    ensures { result ≡ pairs_special (context_of context.now) around (pairs_of pairs.now) }
{
    for pair in pairs {
        if is_faulty(&pair.key, context, around) || is_faulty(&pair.value, context, around) {
            return true;
        }
    }
    false
}

#[cycle(special)]
fn any_keyword_faulty(keys: &[Keyword], context: &Context<'_>, around: Use) -> bool
    ensures { result ≡ keywords_special (context_of context.now) around (keywords_of keys.now) }
{
    for key in keys {
        if context.forbids_keyword(&key.name) || is_faulty(&key.value, context, around) {
            return true;
        }
    }
    false
}

/// Whether a name that may not stand there stands in the expression, if there is one.
pub(crate) fn is_any_faulty(e: &Option<Expr>, context: &Context<'_>, around: Use) -> bool
    ensures { result ≡ maybe_special (context_of context.now) around (maybe_of e.now) }
{
    match e {
        Some(e) => is_faulty(e, context, around),
        None => false,
    }
}

/// Whether one stands in the value of an annotated assignment, if it has one.
pub(crate) fn is_value_faulty(e: &Option<Boxed<Expr>>, context: &Context<'_>, around: Use) -> bool
    ensures { result ≡ maybe_special (context_of context.now) around (maybe_of e.now) }
{
    match e {
        Some(e) => is_faulty(e.get(), context, around),
        None => false,
    }
}

/// Whether it is `super()`.
pub fn is_super(e: &Expr) -> bool
    ensures { result ≡ spec.is_super (expression_of e.now) }
{
    match e {
        Expr::Call(call) => {
            let Call { callee, args, keys } = call.get();
            takes_none(args.as_slice(), keys.as_slice()) && is_named_super(callee)
        }
        _ => false,
    }
}

/// Whether a call has no argument.
fn takes_none(args: &[Expr], keys: &[Keyword]) -> bool
    ensures { result ≡ spec.takes_none (expressions_of args.now) (keywords_of keys.now) }
{
    match args {
        [] => has_none(keys),
        _ => false,
    }
}

fn has_none(keys: &[Keyword]) -> bool
    ensures { result ≡ spec.has_none (keywords_of keys.now) }
{
    match keys {
        [] => true,
        _ => false,
    }
}

fn is_named_super(e: &Expr) -> bool
    ensures { result ≡ spec.is_named_super (expression_of e.now) }
{
    match e {
        Expr::Name(name) => is_word(name, b"super"),
        _ => false,
    }
}

/// Whether a callee is `cast`.
fn casts(callee: &Expr, context: &Context<'_>) -> bool
    ensures { result ≡ casts (context_of context.now) (expression_of callee.now) }
{
    match callee {
        Expr::Name(name) => context.is_cast(name),
        _ => false,
    }
}

/// What is around the first argument of a call: that of `cast` is a type.
fn argument_use(is_cast: bool, around: Use) -> Use
    ensures { result ≡ argument_use is_cast around }
{
    if is_cast { Use::typed() } else { around }
}
