use py_tree::expression::{Call, Expr, Exprs, Keyword, Keywords, Params, Target};
use py_tree::integer::GREATEST_INT;
use py_tree::nesting::depth;
use py_tree::operator::UnaryOp;
use py_tree::statement::{Function, Module, Stmt, StmtKind, Stmts};
use py_tree::text::Text;
use sqlite_items::Boxed;
use std::alloc::{AllocError, Global};
use std::test::Fail;

#[test]
fn a_text_is_its_code_points(rt: HostRuntime) -> Result<(), Fail> {
    let alloc = rt.alloc();
    let text = Text::from_str(alloc, "h\u{e9}\u{1f600}")?;
    assert_eq!(rt; text.len(), 3);
    assert!(rt; text.as_slice() == ['h', '\u{e9}', '\u{1f600}'].as_slice());
    assert!(rt; text.copy(alloc)?.same(&text));
    let other = Text::from_slice(alloc, &['h', '\u{e9}'])?;
    assert!(rt; !other.same(&text));
    let mut joined = Text::from_str(alloc, "h")?;
    joined.append(&Text::from_str(alloc, "\u{e9}")?)?;
    assert!(rt; joined.same(&other));
    Ok(())
}

/// `a = (a, GREATEST_INT)` on line 2.
fn assignment(alloc: Global) -> Result<Stmt, AllocError> {
    let mut items = Exprs::new(alloc);
    items.push(Expr::Name(Text::from_str(alloc, "a")?))?;
    items.push(Expr::Int(GREATEST_INT))?;
    let target = Target::Name(Text::from_str(alloc, "a")?);
    Ok(Stmt {
        line: 2,
        kind: StmtKind::Assign(target, Expr::Tuple(items)),
    })
}

/// The function `f` on line 1, with that assignment.
fn sample(alloc: Global) -> Result<Module, AllocError> {
    let mut body = Stmts::new(alloc);
    body.push(assignment(alloc)?)?;
    let function = Function {
        name: Text::from_str(alloc, "f")?,
        params: Params::new(alloc),
        result: None,
        body,
    };
    let mut all = Stmts::new(alloc);
    all.push(Stmt {
        line: 1,
        kind: StmtKind::Def(Boxed::new(alloc, function)?),
    })?;
    Ok(Module { body: all })
}

/// The number at the end of the value that a statement on line 2 assigns.
fn last_number(stmt: &Stmt) -> Option<u128> {
    match (&stmt.kind, stmt.line) {
        (StmtKind::Assign(_, Expr::Tuple(items)), 2) => match items.as_slice() {
            [.., Expr::Int(n)] => Some(*n),
            _ => None,
        },
        _ => None,
    }
}

#[test]
fn a_module_is_copied_with_its_blocks(rt: HostRuntime) -> Result<(), Fail> {
    let copy = sample(rt.alloc())?.copy(rt.alloc())?;
    let mut numbers = Vec::new(rt.alloc());
    for outer in copy.body.as_slice() {
        if let StmtKind::Def(function) = &outer.kind {
            for inner in function.get().body.as_slice() {
                numbers.push(last_number(inner))?;
            }
        }
    }
    assert_eq!(rt; numbers.as_slice(), [Some(9223372036854775807)].as_slice());
    Ok(())
}

#[test]
fn a_keyword_argument_is_as_deep_as_its_value(rt: HostRuntime) -> Result<(), Fail> {
    let alloc = rt.alloc();
    let value = Expr::Unary(UnaryOp::Minus, Boxed::new(alloc, Expr::Int(1))?);
    let mut keys = Keywords::new(alloc);
    keys.push(Keyword {
        name: Text::from_str(alloc, "k")?,
        value,
    })?;
    let call = Call {
        callee: Expr::Name(Text::from_str(alloc, "f")?),
        args: Exprs::new(alloc),
        keys,
    };
    assert_eq!(rt; depth(&Expr::Call(Boxed::new(alloc, call)?)), 3);
    Ok(())
}
