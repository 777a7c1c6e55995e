use atom_ops::arithmetic::{int_neg, int_op, prim_op};
use atom_ops::atom::{Atom, are_equal, calculate, holds, is_constant, opposite, order, signed};
use py_tree::operator::{BinaryOp, CompareOp, Const, UnaryOp};
use py_values::exception::ExcKind;
use std::cmp::Ordering;

#[test]
fn bools_are_numbers_and_empty_texts_are_false(rt: HostRuntime) {
    assert_eq!(rt; Atom::Truth(true).number(), Some(1));
    assert_eq!(rt; Atom::Prim64(1).number(), None);
    assert!(rt; Atom::Opaque.is_true());
    assert!(rt; !Atom::Points(&[]).is_true());
}

#[test]
fn unary_operators_answer_by_kind(rt: HostRuntime) {
    assert!(rt; matches!(opposite(Atom::Nil), Atom::Truth(true)));
    assert!(rt; matches!(opposite(Atom::PrimBool(true)), Atom::PrimBool(false)));
    assert!(rt; matches!(signed(UnaryOp::Minus, Atom::Truth(true)), Ok(Atom::Int(-1))));
    assert!(rt; matches!(signed(UnaryOp::Plus, Atom::Nil), Err(ExcKind::TypeError)));
    assert_eq!(rt; int_neg(i64::MIN), Err(ExcKind::OverflowError));
}

#[test]
fn division_rounds_down(rt: HostRuntime) {
    assert_eq!(rt; int_op(BinaryOp::FloorDiv, -7, 2), Ok(-4));
    assert_eq!(rt; prim_op(BinaryOp::Mod, -7, 2), Ok(1));
    let quotient = calculate(BinaryOp::FloorDiv, Atom::Int(7), Atom::Int(-2));
    assert!(rt; matches!(quotient, Ok(Atom::Int(-4))));
    let sum = calculate(BinaryOp::Add, Atom::Int(7), Atom::Nil);
    assert!(rt; matches!(sum, Err(ExcKind::TypeError)));
}

#[test]
fn comparisons_see_bools_as_numbers(rt: HostRuntime) {
    assert_eq!(rt;
        order(Atom::Int(2), Atom::Truth(true)),
        Some(Ordering::Greater)
    );
    assert_eq!(rt; order(Atom::Int(2), Atom::Nil), None);
    assert!(rt; are_equal(Atom::Int(1), Atom::Truth(true)));
    assert!(rt; !are_equal(Atom::Int(1), Atom::Points(&['1'])));
    assert!(rt; holds(CompareOp::Le, Ordering::Less));
    assert!(rt; !holds(CompareOp::Gt, Ordering::Equal));
    assert!(rt; is_constant(Const::True, Atom::Truth(true)));
    assert!(rt; !is_constant(Const::True, Atom::Int(1)));
}
