ghost use Rattle.std.specs.Prelude.{◌≡◌, ◌≤◌, ◌++◌, [], OnOk};
ghost use Rattle.std.specs.Option.{option_copied, option_map};
ghost use Rattle.py_lexer.specs.Strings.{Parts, after_closing, after_one, after_three, after_two, onto};
ghost use Rattle.py_lexer.specs.Reading.{line_end_in, part_by, part_in};
ghost use Rattle.py_lexer.specs.Views.{IsParts, part_view};

use crate::character::{CharKind, after_line_end};
use crate::escape::escape_at;
use py_tree::text::Text;
use std::alloc::{AllocError, Global};

/// The quotes around a string literal.
#[derive(Clone, Copy, Debug, PartialEq, Eq)]
pub struct Quotes {
    /// `'` or `"`.
    pub mark: char,
    /// Whether three of them begin the literal and three end it.
    pub triple: bool,
}

/// What stands between the opening quotes and the closing ones, and what is behind these.
pub(crate) fn quoted(
    alloc: Global,
    quotes: Quotes,
    text: &[char],
) -> Result<Option<(Text, &[char])>, AllocError>
    ensures { IsParts quotes text.now result }
{
    let mut characters = Vec::new(alloc);
    let mut rest = text;
    loop {
        if let Some(behind) = after_closing(quotes, rest) {
            return Ok(Some((Text::from_vec(characters), behind)));
        }
        let Some((character, behind)) = part_at(quotes, rest) else {
            return Ok(None);
        };
        push_some(&mut characters, character)?;
        rest = behind;
    }
}

/// Appends a character, where there is one.
fn push_some(characters: &mut Vec<char>, character: Option<char>) -> Result<(), AllocError>
    ensures { OnOk result (characters.new.items ≡ characters.old.items ++ onto character []) }
{
    match character {
        Some(character) => Ok(characters.push(character)?),
        None => Ok(()),
    }
}

/// The character that the first part inside quotes stands for, or none, and what is behind the part.
fn part_at(quotes: Quotes, text: &[char]) -> Option<(Option<char>, &[char])>
    ensures { option_map part_view result ≡ part_in quotes text.now }
{
    match text {
        [] => None,
        [first, rest @ ..] => match CharKind::of(*first) {
            CharKind::LineEnd => line_end_in(quotes, text),
            CharKind::Backslash => escape_at(rest),
            _ => Some((Some(*first), rest)),
        },
    }
}

/// A line end inside quotes, which is always a line feed.
fn line_end_in(quotes: Quotes, text: &[char]) -> Option<(Option<char>, &[char])>
    ensures { option_map part_view result ≡ line_end_in quotes text.now }
{
    if !quotes.triple {
        return None;
    }
    Some((Some('\n'), after_line_end(text)?))
}

/// What is behind the closing quotes at the front, if they stand there.
fn after_closing(quotes: Quotes, text: &[char]) -> Option<&[char]>
    ensures { option_copied result ≡ after_closing quotes text.now }
{
    if quotes.triple {
        after_two(quotes.mark, after_one(quotes.mark, text)?)
    } else {
        after_one(quotes.mark, text)
    }
}

/// What is behind the quote at the front, if it stands there.
fn after_one(mark: char, text: &[char]) -> Option<&[char]>
    ensures { option_copied result ≡ after_one mark text.now }
{
    match text {
        [first, rest @ ..] if *first == mark => Some(rest),
        _ => None,
    }
}

/// What is behind two quotes at the front, if they stand there.
pub(crate) fn after_two(mark: char, text: &[char]) -> Option<&[char]>
    ensures { option_copied result ≡ after_two mark text.now }
{
    after_one(mark, after_one(mark, text)?)
}
