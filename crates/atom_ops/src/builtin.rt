ghost use Rattle.std.specs.Prelude.{◌≡◌, ◌++◌, IfOk, length, nat_eq, pos};
ghost use Rattle.std.specs.Fmt.{signed_decimal};
ghost use Rattle.std.specs.List as list;
ghost use Rattle.atom_ops.specs.Arithmetic.{as_int};
ghost use Rattle.atom_ops.specs.Atoms.{operand_of};
ghost use Rattle.atom_ops.specs.Operators as table;

use crate::atom::Atom;
use crate::text::repr_text;
use py_tree::text::Text;
use py_values::exception::ExcKind;
use py_values::int::PyInt;
use std::alloc::{AllocError, Global};

/// `a + b` of two texts.
pub fn joined(alloc: Global, a: &[char], b: &[char]) -> Result<Text, AllocError>
    ensures points { IfOk result (λ made. made ≡ a.now ++ b.now) }
{
    let mut points = Vec::from_slice(alloc, a)?;
    points.extend_from_slice(b)?;
    Ok(Text::from_vec(points))
}

/// Whether a text begins with a part. Takes no memory.
pub fn begins(text: &[char], part: &[char]) -> bool
    ensures begins { result ≡ list.starts_with nat_eq text.now part.now }
{
    text.starts_with(part)
}

/// Whether a text ends with a part. Takes no memory.
pub fn ends(text: &[char], part: &[char]) -> bool
    ensures ends { result ≡ list.ends_with nat_eq text.now part.now }
{
    text.ends_with(part)
}

/// The place, from 0, of the item with that number among so many: from 0, and from the end where it is negative. Takes no memory.
pub fn place_in(count: usize, number: PyInt) -> Option<usize>
    ensures place { result ≡ table.place_in count number }
{
    let distance = usize::try_from(number.unsigned_abs()).ok()?;
    if number < 0 {
        count.checked_sub(distance)
    } else if distance < count {
        Some(distance)
    } else {
        None
    }
}

/// The character of that code. Takes no memory.
pub fn character(code: PyInt) -> Option<char>
    ensures character { result ≡ table.character code }
{
    let code = u32::try_from(code).ok()?;
    char::from_u32(code)
}

/// The code of a text of one code point. Takes no memory.
pub fn code_of(text: &[char]) -> Option<PyInt>
    ensures code { result ≡ table.code_of text.now }
{
    match text {
        [point] => Some(PyInt::from(*point as u32)),
        _ => None,
    }
}

/// How far a number is from 0. Takes no memory.
pub fn magnitude(number: PyInt) -> Result<PyInt, ExcKind>
    ensures magnitude { result ≡ table.magnitude number }
{
    number.checked_abs().ok_or(ExcKind::OverflowError)
}

/// A length as an int. Takes no memory.
pub fn length_as_int(length: usize) -> Result<PyInt, ExcKind>
    ensures int { result ≡ as_int (pos length) }
{
    PyInt::try_from(length).or(Err(ExcKind::OverflowError))
}

/// The text that `repr` gives of an atom, and `str` of all but a text. Primitives and opaque ones have none.
pub fn text_of(alloc: Global, a: Atom<'_>) -> Result<Option<Text>, AllocError>
    ensures text { IfOk result (λ text. text ≡ table.written (operand_of a.entry)) }
{
    match a {
        Atom::Nil => Ok(Some(Text::from_slice(alloc, &['N', 'o', 'n', 'e'])?)),
        Atom::Truth(true) => Ok(Some(Text::from_slice(alloc, &['T', 'r', 'u', 'e'])?)),
        Atom::Truth(false) => Ok(Some(Text::from_slice(alloc, &['F', 'a', 'l', 's', 'e'])?)),
        Atom::Int(number) => Ok(Some(in_decimal(alloc, number)?)),
        Atom::Points(text) => Ok(Some(repr_text(alloc, text)?)),
        Atom::Prim64(_) | Atom::PrimBool(_) | Atom::Opaque => Ok(None),
    }
}

fn in_decimal(alloc: Global, number: PyInt) -> Result<Text, AllocError>
    ensures { IfOk result (λ text. text ≡ signed_decimal number) }
{
    let digits = number.to_string(alloc)?;
    Ok(Text::from_str(alloc, digits.as_str())?)
}
