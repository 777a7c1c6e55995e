ghost use Rattle.std.specs.Prelude.{◌≡◌, ◌≤◌, ◌<◌, ◌^◌, Some, None, length, if◌then◌else◌, nat_lt, ◌&&◌};
ghost use Rattle.std.specs.List.{list_all};
ghost use Rattle.std.specs.Option.{option_map};
ghost use Rattle.py_lexer.specs.Reading.{escape_by, escape_in, hexadecimal_in, octal_in};
ghost use Rattle.py_lexer.specs.Strings.{character_of, escape_of, octal_digits, other_escape_of, value_from};
ghost use Rattle.py_lexer.specs.Views.{part_view, value_in};

use crate::character::{after_line_end, is_line_character};

/// What a character means behind a backslash in a string literal (Python reference: string and bytes literals).
#[derive(Clone, Copy, Debug, PartialEq, Eq)]
pub enum Escape {
    /// With the line end that it begins, nothing.
    LineEnd,
    /// This character.
    Character(char),
    /// The first of up to three octal digits.
    Octal,
    /// So many hexadecimal digits follow.
    Hexadecimal(usize),
    /// Nothing: no escape begins so.
    Unknown,
}

impl Escape {
    /// What a character means behind a backslash.
    #[tactic(auto, unfolding(crate::specs::Strings::escape_of))]
    pub fn of(character: char) -> Escape
        ensures { result ≡ escape_of character }
    {
        match escaped_character(character) {
            Some(escaped) => Escape::Character(escaped),
            None => other_escape(character),
        }
    }
}

/// The character that one behind a backslash stands for.
fn escaped_character(character: char) -> Option<char>
    ensures { result ≡ character_of character }
{
    match character {
        '\\' | '\'' | '"' => Some(character),
        'a' => Some('\u{7}'),
        'b' => Some('\u{8}'),
        'f' => Some('\u{c}'),
        'n' => Some('\n'),
        'r' => Some('\r'),
        't' => Some('\t'),
        'v' => Some('\u{b}'),
        _ => None,
    }
}

/// What a character means behind a backslash, where it stands for no character.
fn other_escape(character: char) -> Escape
    ensures { result ≡ other_escape_of character }
{
    match character {
        _ if is_line_character(character) => Escape::LineEnd,
        _ if character.is_digit(8) => Escape::Octal,
        'x' => Escape::Hexadecimal(2),
        'u' => Escape::Hexadecimal(4),
        'U' => Escape::Hexadecimal(8),
        _ => Escape::Unknown,
    }
}

/// The character that the escape behind a backslash stands for, or none, and what is behind the escape.
pub(crate) fn escape_at(text: &[char]) -> Option<(Option<char>, &[char])>
    ensures { option_map part_view result ≡ escape_in text.now }
{
    match text {
        [] => None,
        [first, rest @ ..] => match Escape::of(*first) {
            Escape::LineEnd => Some((None, after_line_end(text)?)),
            Escape::Character(character) => Some((Some(character), rest)),
            Escape::Octal => octal_at(text),
            Escape::Hexadecimal(digits) => hexadecimal_at(digits, rest),
            Escape::Unknown => None,
        },
    }
}

/// The character by up to three octal digits.
fn octal_at(text: &[char]) -> Option<(Option<char>, &[char])>
    ensures { option_map part_view result ≡ octal_in text.now }
{
    let (digits, rest) = text.split_at(octal_len(text));
    let value = value_of(digits, 8)?;
    if value > 0o377 {
        return None;
    }
    Some((Some(char::from_u32(value)?), rest))
}

/// The character by so many hexadecimal digits.
fn hexadecimal_at(digits: usize, text: &[char]) -> Option<(Option<char>, &[char])>
    ensures { option_map part_view result ≡ hexadecimal_in digits text.now }
{
    if digits > text.len() {
        return None;
    }
    let (digits, rest) = text.split_at(digits);
    let value = value_of(digits, 16)?;
    Some((Some(char::from_u32(value)?), rest))
}

/// How many octal digits an escape has.
fn octal_len(text: &[char]) -> usize
    ensures count { result ≡ octal_digits text.now }
    ensures within { result ≤ length text.now }
{
    text.iter().take(3).take_while(|c| c.is_digit(8)).count()
}

/// The value of digits, where they are some and it is below 2^32.
fn value_of(digits: &[char], base: u32) -> Option<u32>
    requires lower { 2 ≤ base }
    requires upper { base ≤ 36 }
    ensures { result ≡ value_in base digits.now }
{
    let mut value: u32 = 0;
    for digit in digits {
        let digit = digit.to_digit(base)?;
        value = value.checked_mul(base)?.checked_add(digit)?;
    }
    Some(value)
}
