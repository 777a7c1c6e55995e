ghost use Rattle.std.specs.Prelude.{◌≡◌, ◌≤◌, ◌^◌, ◌-◌, length, min, pos};
ghost use Rattle.std.specs.Char.{is_ascii_digit};
ghost use Rattle.std.specs.List.{list_all, prefix_len, suffix_len};
ghost use Rattle.atom_ops.specs.IntTexts.{decimal, int_of, is_decimal, is_space, negative, signed, with_sign, without_first_spaces, without_last_spaces};

use crate::arithmetic::within_int;
use py_values::exception::ExcKind;
use py_values::int::PyInt;

/// The int that a text spells: spaces round it, a sign or none, and decimal digits. Another text is a `ValueError`, and a number out
/// of range an `OverflowError`. Takes no memory.
pub fn read_int(text: &[char]) -> Result<PyInt, ExcKind>
    ensures int { result ≡ int_of text.now }
{
    signed_number(trim(text))
}

fn trim(text: &[char]) -> &[char]
    ensures { result.now ≡ without_last_spaces (without_first_spaces text.now) }
{
    let (_, text) = text.split_at(spaces_before(text));
    let (text, _) = text.split_at(text.len() - spaces_behind(text));
    text
}

fn spaces_before(text: &[char]) -> usize
    ensures count { result ≡ prefix_len is_space text.now }
    ensures within { result ≤ length text.now }
{
    text.iter().take_while(|point| **point == ' ').count()
}

fn spaces_behind(text: &[char]) -> usize
    ensures count { result ≡ suffix_len is_space text.now }
    ensures within { result ≤ length text.now }
{
    text.iter().rev().take_while(|point| **point == ' ').count()
}

fn signed_number(text: &[char]) -> Result<PyInt, ExcKind>
    ensures { result ≡ with_sign text.now }
{
    match text {
        ['-', digits @ ..] => negative_number(digits),
        ['+', digits @ ..] => number(digits),
        _ => number(text),
    }
}

fn is_number(digits: &[char]) -> bool
    ensures { result ≡ is_decimal digits.now }
{
    !digits.is_empty() && are_digits(digits)
}

fn are_digits(points: &[char]) -> bool
    ensures { result ≡ list_all is_ascii_digit points.now }
{
    points.iter().all(|point| point.is_ascii_digit())
}

fn number(digits: &[char]) -> Result<PyInt, ExcKind>
    ensures { result ≡ signed pos digits.now }
{
    if !is_number(digits) {
        return Err(ExcKind::ValueError);
    }
    within_int(i128::from(magnitude(digits)))
}

fn negative_number(digits: &[char]) -> Result<PyInt, ExcKind>
    ensures { result ≡ signed negative digits.now }
{
    if !is_number(digits) {
        return Err(ExcKind::ValueError);
    }
    within_int(-i128::from(magnitude(digits)))
}

/// The number that digits spell, or the greatest `u64` where it is above that.
fn magnitude(digits: &[char]) -> u64
    ensures { result ≡ min (decimal digits.now) (2 ^ 64 - 1) }
{
    let mut number: u64 = 0;
    for digit in digits {
        number = number
            .saturating_mul(10)
            .saturating_add(digit_value(*digit));
    }
    number
}

fn digit_value(digit: char) -> u64
    ensures { result ≡ digit - 48 }
{
    u64::from(digit as u32).saturating_sub(48)
}
