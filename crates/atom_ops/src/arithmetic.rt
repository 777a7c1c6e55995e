ghost use Rattle.std.specs.Prelude.{◌≡◌};
ghost use Rattle.py_tree.specs.declared.operator.BinaryOp.TheVariants as operator;
ghost use Rattle.atom_ops.specs.Arithmetic.{as_int, int_result, negated, primitive_result};

use crate::floored::floored;
use py_tree::operator::BinaryOp;
use py_values::exception::ExcKind;
use py_values::int::PyInt;

/// `a op b` of two ints (Python reference: binary arithmetic operations). Takes no memory.
pub fn int_op(op: BinaryOp, a: PyInt, b: PyInt) -> Result<PyInt, ExcKind>
    ensures result { result ≡ int_result op a b }
{
    match op {
        BinaryOp::Add => a.checked_add(b).ok_or(ExcKind::OverflowError),
        BinaryOp::Sub => a.checked_sub(b).ok_or(ExcKind::OverflowError),
        BinaryOp::Mul => a.checked_mul(b).ok_or(ExcKind::OverflowError),
        BinaryOp::FloorDiv => quotient(a, b),
        BinaryOp::Mod => remainder(a, b),
    }
}

/// `-a` of an int. Takes no memory.
pub fn int_neg(a: PyInt) -> Result<PyInt, ExcKind>
    ensures result { result ≡ negated a }
{
    a.checked_neg().ok_or(ExcKind::OverflowError)
}

/// `a op b` of two primitive `int64`s, modulo 2^64. Takes no memory.
pub fn prim_op(op: BinaryOp, a: i64, b: i64) -> Result<i64, ExcKind>
    ensures result { result ≡ primitive_result op a b }
{
    match op {
        BinaryOp::Add => Ok(a.wrapping_add(b)),
        BinaryOp::Sub => Ok(a.wrapping_sub(b)),
        BinaryOp::Mul => Ok(a.wrapping_mul(b)),
        BinaryOp::FloorDiv => wrapping_quotient(a, b),
        BinaryOp::Mod => remainder(a, b),
    }
}

fn quotient(a: i64, b: i64) -> Result<i64, ExcKind>
    ensures { result ≡ int_result operator.FloorDiv a b }
{
    if b == 0 {
        return Err(ExcKind::ZeroDivisionError);
    }
    within_int(floored(a, b).quotient)
}

/// The quotient modulo 2^64. It is an int at every divisor but -1.
fn wrapping_quotient(a: i64, b: i64) -> Result<i64, ExcKind>
    ensures { result ≡ primitive_result operator.FloorDiv a b }
{
    if b == -1 {
        return Ok(a.wrapping_neg());
    }
    quotient(a, b)
}

fn remainder(a: i64, b: i64) -> Result<i64, ExcKind>
    ensures int { result ≡ int_result operator.Mod a b }
    ensures primitive { result ≡ primitive_result operator.Mod a b }
{
    if b == 0 {
        return Err(ExcKind::ZeroDivisionError);
    }
    within_int(floored(a, b).remainder)
}

pub(crate) fn within_int(number: i128) -> Result<PyInt, ExcKind>
    ensures { result ≡ as_int number }
{
    PyInt::try_from(number).or(Err(ExcKind::OverflowError))
}
