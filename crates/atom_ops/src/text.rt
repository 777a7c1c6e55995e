ghost use Rattle.std.specs.Prelude.{◌≡◌, ◌<◌, [], ◌∷◌, ◌++◌, IfOk, OnOk};
ghost use Rattle.std.specs.Char.{digit_char};
ghost use Rattle.atom_ops.specs.Texts.{backslash, escaped, in_hex, order_of, quote_of, repr_of};

use py_tree::text::Text;
use std::alloc::{AllocError, Global};
use std::cmp::Ordering;

/// The order of two texts, by their code points. Takes no memory.
pub fn compare_text(a: &[char], b: &[char]) -> Ordering
    ensures order { result ≡ order_of a.now b.now }
{
    a.cmp(b)
}

/// The text that `repr` gives of a text.
pub fn repr_text(alloc: Global, text: &[char]) -> Result<Text, AllocError>
    ensures points { IfOk result (λ made. made ≡ repr_of text.now) }
{
    let quote = quote(text);
    let mut points = Vec::new(alloc);
    points.push(quote)?;
    for point in text {
        push_escaped(&mut points, quote, *point)?;
    }
    points.push(quote)?;
    Ok(Text::from_vec(points))
}

fn quote(text: &[char]) -> char
    ensures { result ≡ quote_of text.now }
{
    if text.contains(&'\'') && !text.contains(&'"') {
        '"'
    } else {
        '\''
    }
}

fn push_escaped(points: &mut Vec<char>, quote: char, point: char) -> Result<(), AllocError>
    ensures { OnOk result (points.new.items ≡ points.old.items ++ escaped quote point) }
{
    if point == quote || point == '\\' {
        return push_escape(points, point);
    }
    match point {
        '\n' => push_escape(points, 'n'),
        '\r' => push_escape(points, 'r'),
        '\t' => push_escape(points, 't'),
        _ if point.is_ascii_control() => push_in_hex(points, point),
        _ => Ok(points.push(point)?),
    }
}

fn push_escape(points: &mut Vec<char>, letter: char) -> Result<(), AllocError>
    ensures { OnOk result (points.new.items ≡ points.old.items ++ backslash ∷ letter ∷ []) }
{
    points.push('\\')?;
    points.push(letter)?;
    Ok(())
}

fn push_in_hex(points: &mut Vec<char>, point: char) -> Result<(), AllocError>
    requires { point < 128 }
    ensures { OnOk result (points.new.items ≡ points.old.items ++ in_hex point) }
{
    let code = point as u32;
    push_escape(points, 'x')?;
    points.push(hex_digit(code / 16))?;
    points.push(hex_digit(code % 16))?;
    Ok(())
}

fn hex_digit(digit: u32) -> char
    requires { digit < 16 }
    ensures { result ≡ digit_char digit }
{
    match char::from_digit(digit, 16) {
        Some(point) => point,
        None => unreachable!(),
    }
}
