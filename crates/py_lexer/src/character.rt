ghost use Rattle.std.specs.Prelude.{◌≡◌, ◌≤◌, ◌==◌, length};
ghost use Rattle.std.specs.List.{prefix_len};
ghost use Rattle.std.specs.Option.{option_copied};
ghost use Rattle.py_lexer.specs.Characters.{after_line_end, after_line_feed, in_comment, is_blank, is_line_character, is_quote, is_space, kind_of, line_feeds};

use crate::names::may_start_identifier;

/// What a character begins, where no piece has begun (Python reference: lexical analysis).
#[derive(Clone, Copy, Debug, PartialEq, Eq)]
pub enum CharKind {
    /// A space or a tab.
    Blank,
    /// `#`, which begins a comment.
    Hash,
    /// A line feed, or a carriage return, which stands only before one.
    LineEnd,
    /// A backslash, which joins two lines.
    Backslash,
    /// Another, which begins a token.
    Token(TokenKind),
}

/// What a token is, by the character that it begins with.
#[derive(Clone, Copy, Debug, PartialEq, Eq)]
pub enum TokenKind {
    /// An identifier or a keyword: the character may start an identifier.
    Name,
    /// An integer literal: the character is a decimal digit.
    Integer,
    /// A string literal: the character is a quote.
    String,
    /// An operator or delimiter, if any token.
    Mark,
}

impl CharKind {
    /// The kind of a character.
    #[tactic(auto, unfolding(crate::specs::Characters::kind_of))]
    pub fn of(character: char) -> CharKind
        ensures { result ≡ kind_of character }
    {
        match character {
            ' ' | '\t' => CharKind::Blank,
            '#' => CharKind::Hash,
            '\n' | '\r' => CharKind::LineEnd,
            '\\' => CharKind::Backslash,
            '\'' | '"' => CharKind::Token(TokenKind::String),
            _ if character.is_ascii_digit() => CharKind::Token(TokenKind::Integer),
            _ if may_start_identifier(character) => CharKind::Token(TokenKind::Name),
            _ => CharKind::Token(TokenKind::Mark),
        }
    }
}

/// Whether a character is a space or a tab.
pub(crate) fn is_blank(character: char) -> bool
    ensures { result ≡ is_blank character }
{
    character == ' ' || character == '\t'
}

/// Whether a character is a quote.
pub(crate) fn is_quote(character: char) -> bool
    ensures { result ≡ is_quote character }
{
    character == '\'' || character == '"'
}

/// Whether a character is part of a line end.
pub(crate) fn is_line_character(character: char) -> bool
    ensures { result ≡ is_line_character character }
{
    character == '\n' || character == '\r'
}

/// How many blanks stand at the front.
#[tactic(auto, using(crate::proofs::Runs::within))]
pub(crate) fn blanks_len(characters: &[char]) -> usize
    ensures count { result ≡ prefix_len is_blank characters.now }
    ensures within { result ≤ length characters.now }
{
    characters.iter().take_while(|c| is_blank(**c)).count()
}

/// How many spaces stand at the front.
#[tactic(auto, using(crate::proofs::Runs::within))]
pub(crate) fn spaces_len(characters: &[char]) -> usize
    ensures count { result ≡ prefix_len is_space characters.now }
    ensures within { result ≤ length characters.now }
{
    characters.iter().take_while(|c| **c == ' ').count()
}

/// How many characters at the front are part of a comment that has begun.
#[tactic(auto, using(crate::proofs::Runs::within))]
pub(crate) fn comment_len(characters: &[char]) -> usize
    ensures count { result ≡ prefix_len in_comment characters.now }
    ensures within { result ≤ length characters.now }
{
    characters
        .iter()
        .take_while(|c| !is_line_character(**c))
        .count()
}

/// How many line feeds there are.
#[tactic(auto, using(crate::proofs::Runs::counted))]
pub(crate) fn line_feeds(characters: &[char]) -> usize
    ensures count { result ≡ line_feeds characters.now }
    ensures within { result ≤ length characters.now }
{
    characters.iter().filter(|c| **c == '\n').count()
}

/// What is behind the line end at the front, if one stands there.
pub(crate) fn after_line_end(characters: &[char]) -> Option<&[char]>
    ensures { option_copied result ≡ after_line_end characters.now }
{
    match characters {
        ['\n', rest @ ..] | ['\r', '\n', rest @ ..] => Some(rest),
        _ => None,
    }
}
