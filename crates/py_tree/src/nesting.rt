ghost use Rattle.std.specs.Prelude.{◌≡◌, min};
ghost use Rattle.py_tree.specs.Joined.{expression_of, expressions_of, keywords_of, pairs_of};
ghost use Rattle.py_tree.specs.Nesting as spec;

use crate::expression::{Call, Expr, Keyword, Pair};

/// The nesting of an expression, or 4294967295 where it is greater. Takes no memory, and a stack as deep as the expression.
#[cycle(depth)]
pub fn depth(e: &Expr) -> u32
    ensures nesting { result ≡ min (spec.nesting (expression_of e.now)) 4294967295 }
{
    match e {
        Expr::Nil | Expr::True | Expr::False | Expr::Int(_) | Expr::Str(_) | Expr::Name(_) => 1,
        Expr::Tuple(items) | Expr::List(items) => deepest(items.as_slice()).saturating_add(1),
        Expr::Dict(pairs) => deepest_pair(pairs.as_slice()).saturating_add(1),
        Expr::Unary(_, e) | Expr::Not(e) | Expr::Attr(e, _) => depth(e.get()).saturating_add(1),
        Expr::Is { left, .. } => depth(left.get()).saturating_add(1),
        Expr::Binary(_, a, b) => depth(a.get()).max(depth(b.get())).saturating_add(1),
        Expr::Compare(_, a, b) => depth(a.get()).max(depth(b.get())).saturating_add(1),
        Expr::And(a, b) | Expr::Or(a, b) | Expr::Index(a, b) => {
            depth(a.get()).max(depth(b.get())).saturating_add(1)
        }
        Expr::Cond { test, yes, no } => depth(test.get())
            .max(depth(yes.get()).max(depth(no.get())))
            .saturating_add(1),
        Expr::Call(call) => {
            let Call { callee, args, keys } = call.get();
            depth(callee)
                .max(deepest(args.as_slice()).max(deepest_keyword(keys.as_slice())))
                .saturating_add(1)
        }
    }
}

#[cycle(depth)]
fn deepest(items: &[Expr]) -> u32
    ensures { result ≡ min (spec.deepest (expressions_of items.now)) 4294967295 }
{
    let mut most = 0;
    for item in items {
        most = depth(item).max(most);
    }
    most
}

#[cycle(depth)]
fn deepest_pair(pairs: &[Pair]) -> u32
    ensures { result ≡ min (spec.deepest_pair (pairs_of pairs.now)) 4294967295 }
{
    let mut most = 0;
    for pair in pairs {
        most = depth(&pair.key).max(depth(&pair.value)).max(most);
    }
    most
}

#[cycle(depth)]
fn deepest_keyword(keywords: &[Keyword]) -> u32
    ensures { result ≡ min (spec.deepest_keyword (keywords_of keywords.now)) 4294967295 }
{
    let mut most = 0;
    for keyword in keywords {
        most = depth(&keyword.value).max(most);
    }
    most
}
