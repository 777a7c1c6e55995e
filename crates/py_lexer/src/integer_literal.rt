ghost use Rattle.std.specs.Prelude.{◌≡◌, ◌≤◌, false, length};
ghost use Rattle.std.specs.List.{prefix_len};
ghost use Rattle.std.specs.Option.{option_map};
ghost use Rattle.py_lexer.specs.Integers.{base_of, in_number, prefix_base};
ghost use Rattle.py_lexer.specs.Reading.{capped, decimal_in, digits_in, integer_in, prefixed_in};

use py_tree::integer::GREATEST_INT;
use unicode_ident::is_xid_continue;

/// The value of an integer literal (Python reference: integer literals). Values above the greatest `int` are not told
/// apart: each gives the next number.
pub(crate) fn integer_value(literal: &[char]) -> Option<u128>
    ensures { result ≡ option_map capped (integer_in literal.now) }
{
    match prefix_base(literal) {
        Some(base) => prefixed_value(literal, base),
        None => decimal_value(literal),
    }
}

/// How many characters at the front belong to an integer literal that has begun.
#[tactic(auto, using(crate::proofs::Runs::within))]
pub(crate) fn number_len(characters: &[char]) -> usize
    ensures count { result ≡ prefix_len in_number characters.now }
    ensures within { result ≤ length characters.now }
{
    characters
        .iter()
        .take_while(|c| is_xid_continue(**c) || **c == '.')
        .count()
}

/// The base that the prefix names, where there is one.
fn prefix_base(literal: &[char]) -> Option<u32>
    ensures base { result ≡ prefix_base literal.now }
{
    match literal {
        ['0', letter, ..] => base_of(*letter),
        _ => None,
    }
}

/// The base that a letter behind a first 0 names.
fn base_of(letter: char) -> Option<u32>
    ensures { result ≡ base_of letter }
{
    match letter {
        'x' | 'X' => Some(16),
        'o' | 'O' => Some(8),
        'b' | 'B' => Some(2),
        _ => None,
    }
}

/// The value of a literal behind its prefix.
fn prefixed_value(literal: &[char], base: u32) -> Option<u128>
    requires lower { 2 ≤ base }
    requires upper { base ≤ 36 }
    ensures { result ≡ option_map capped (prefixed_in base literal.now) }
{
    match literal {
        [_, _, digits @ ..] if !digits.is_empty() => digits_value(0, digits, base),
        _ => None,
    }
}

/// The value of a literal without a prefix.
fn decimal_value(literal: &[char]) -> Option<u128>
    ensures { result ≡ option_map capped (decimal_in literal.now) }
{
    let [first, rest @ ..] = literal else {
        return None;
    };
    let value = digits_value(u128::from(first.to_digit(10)?), rest, 10)?;
    if *first == '0' && value != 0 {
        return None;
    }
    Some(value)
}

/// The value of digits, with single underscores before them, behind those of a first value.
#[tactic(auto, using(crate::proofs::Values::cap_digits))]
fn digits_value(first: u128, digits: &[char], base: u32) -> Option<u128>
    requires first { first ≤ 9 }
    requires lower { 2 ≤ base }
    requires upper { base ≤ 36 }
    ensures { result ≡ option_map capped (digits_in base first false digits.now) }
{
    let mut value = first;
    let mut after_underscore = false;
    for digit in digits {
        if *digit == '_' {
            if after_underscore {
                return None;
            }
            after_underscore = true;
            continue;
        }
        let digit = u128::from(digit.to_digit(base)?);
        value = (value * u128::from(base) + digit).min(GREATEST_INT + 1);
        after_underscore = false;
    }
    if after_underscore { None } else { Some(value) }
}
