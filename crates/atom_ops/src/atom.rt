ghost use Rattle.std.specs.Prelude.{◌≡◌};
ghost use Rattle.atom_ops.specs.Atoms.{answer, operand_of};
ghost use Rattle.atom_ops.specs.Operands as spec;
ghost use Rattle.atom_ops.specs.Operands.{Gives, Prim64, free};
ghost use Rattle.atom_ops.specs.Operators as table;

use crate::arithmetic::{int_neg, int_op, prim_op};
use crate::text::compare_text;
use py_tree::operator::{BinaryOp, CompareOp, Const, UnaryOp};
use py_values::exception::ExcKind;
use py_values::int::PyInt;
use std::cmp::Ordering;

/// An operand that an operator sees whole, or another.
#[derive(Clone, Copy)]
pub enum Atom<'a> {
    Nil,
    Truth(bool),
    Int(PyInt),
    Points(&'a [char]),
    Prim64(i64),
    PrimBool(bool),
    /// A value of another kind. What it holds, and whether it is a certain one, is told before an atom is asked.
    Opaque,
}

impl<'a> Atom<'a> {
    /// The number that an int or a bool is. Takes no memory.
    pub fn number(self) -> Option<PyInt>
        ensures number { result ≡ spec.number_of (operand_of self.entry) }
    {
        match self {
            Atom::Int(number) => Some(number),
            Atom::Truth(true) => Some(1),
            Atom::Truth(false) => Some(0),
            _ => None,
        }
    }

    /// Its truth value. Takes no memory.
    pub fn is_true(self) -> bool
        ensures truth { result ≡ spec.is_true (operand_of self.entry) }
    {
        match self {
            Atom::Nil => false,
            Atom::Truth(truth) => truth,
            Atom::PrimBool(truth) => truth,
            Atom::Int(number) => number != 0,
            Atom::Prim64(number) => number != 0,
            Atom::Points(text) => !text.is_empty(),
            Atom::Opaque => true,
        }
    }
}

/// `not a`. Takes no memory.
pub fn opposite<'a>(a: Atom<'a>) -> Atom<'a>
    ensures opposite { table.opposite (operand_of a.entry) ≡ free (Gives (operand_of result)) }
{
    match a {
        Atom::PrimBool(truth) => Atom::PrimBool(!truth),
        _ => Atom::Truth(!a.is_true()),
    }
}

/// `-a` and `+a`. Takes no memory.
pub fn signed<'a>(op: UnaryOp, a: Atom<'a>) -> Result<Atom<'a>, ExcKind>
    ensures signed { table.signed op (operand_of a.entry) ≡ free (answer result) }
{
    if let Atom::Prim64(number) = a {
        return Ok(Atom::Prim64(signed_primitive(op, number)));
    }
    match (op, a.number()) {
        (UnaryOp::Minus, Some(number)) => Ok(Atom::Int(int_neg(number)?)),
        (UnaryOp::Plus, Some(number)) => Ok(Atom::Int(number)),
        (_, None) => Err(ExcKind::TypeError),
    }
}

fn signed_primitive(op: UnaryOp, number: i64) -> i64
    ensures { table.signed op (Prim64 number) ≡ free (Gives (Prim64 result)) }
{
    match op {
        UnaryOp::Minus => number.wrapping_neg(),
        UnaryOp::Plus => number,
    }
}

/// `a op b` of all but two texts. Takes no memory.
pub fn calculate<'a>(op: BinaryOp, a: Atom<'a>, b: Atom<'a>) -> Result<Atom<'a>, ExcKind>
    ensures result { table.calculated op (operand_of a.entry) (operand_of b.entry) ≡ free (answer result) }
{
    if let (Atom::Prim64(a), Atom::Prim64(b)) = (a, b) {
        return Ok(Atom::Prim64(prim_op(op, a, b)?));
    }
    match (a.number(), b.number()) {
        (Some(a), Some(b)) => Ok(Atom::Int(int_op(op, a, b)?)),
        _ => Err(ExcKind::TypeError),
    }
}

/// The order of two ints, two texts or two `int64`s. Takes no memory.
pub fn order<'a>(a: Atom<'a>, b: Atom<'a>) -> Option<Ordering>
    ensures order { result ≡ table.order (operand_of a.entry) (operand_of b.entry) }
{
    match (a, b) {
        (Atom::Points(a), Atom::Points(b)) => Some(compare_text(a, b)),
        (Atom::Prim64(a), Atom::Prim64(b)) => Some(a.cmp(&b)),
        (a, b) => match (a.number(), b.number()) {
            (Some(a), Some(b)) => Some(a.cmp(&b)),
            _ => None,
        },
    }
}

/// Whether they are equal. Different kinds are unequal. Takes no memory.
pub fn are_equal<'a>(a: Atom<'a>, b: Atom<'a>) -> bool
    ensures equal { result ≡ table.are_equal (operand_of a.entry) (operand_of b.entry) }
{
    match (a, b) {
        (Atom::Nil, Atom::Nil) => true,
        (Atom::PrimBool(a), Atom::PrimBool(b)) => a == b,
        (a, b) => matches!(order(a, b), Some(Ordering::Equal)),
    }
}

/// Whether the comparison holds of operands in that order. Takes no memory.
pub fn holds(op: CompareOp, order: Ordering) -> bool
    ensures holds { result ≡ table.holds op order }
{
    match op {
        CompareOp::Eq => order.is_eq(),
        CompareOp::Ne => order.is_ne(),
        CompareOp::Lt => order.is_lt(),
        CompareOp::Le => order.is_le(),
        CompareOp::Gt => order.is_gt(),
        CompareOp::Ge => order.is_ge(),
        CompareOp::In | CompareOp::NotIn => false,
    }
}

/// Whether it is that constant, as `is` asks. Takes no memory.
pub fn is_constant(constant: Const, a: Atom<'_>) -> bool
    ensures constant { result ≡ table.is_constant constant (operand_of a.entry) }
{
    match (constant, a) {
        (Const::Nil, Atom::Nil) => true,
        (Const::True, Atom::Truth(truth)) => truth,
        (Const::False, Atom::Truth(truth)) => !truth,
        _ => false,
    }
}
