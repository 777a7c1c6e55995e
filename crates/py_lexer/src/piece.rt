ghost use Rattle.std.specs.Prelude.{◌≡◌, ◌≤◌, ◌<◌, ◌+◌, ◌^◌, ◌==◌, Some, false, length};
ghost use Rattle.std.specs.List.{list_any};
ghost use Rattle.py_lexer.specs.declared.character.CharKind.TheVariants as kind;
ghost use Rattle.py_tree.specs.declared.fault.Stop.TheVariants as stop;
ghost use Rattle.py_lexer.specs.Pieces.{fault, behind_indentation, behind_line_end, depth_behind, line_end_at, on_next_line};
ghost use Rattle.py_lexer.specs.Reading.{blanks_step, comment_step, indentation_step, joined_line_step, kind_at, line_end_step, settled};
ghost use Rattle.py_lexer.specs.Views.{GivesStep, IsStep, step_view};

use crate::character::{
    CharKind, TokenKind, after_line_end, blanks_len, comment_len, line_feeds, spaces_len,
};
use crate::lexeme::token_at;
use crate::token::{Mark, Token};
use py_tree::code::Code;
use py_tree::fault::{Fault, Stop};
use std::alloc::Global;

/// How many brackets may be open.
const GREATEST_DEPTH: u32 = 100;

/// A part of a text: pieces stand one behind another and cover it (Python reference: lexical analysis).
#[derive(Drop)]
pub enum Piece {
    /// The blanks that begin a logical line: how many spaces begin them, and the physical line.
    Indentation { spaces: u32, line: u32 },
    Token(Token),
    /// Spaces and tabs between tokens.
    Blanks,
    Comment,
    /// A line end that doesn't end the logical line: it stands behind a backslash or inside brackets.
    JoinedLine,
    /// The end of a logical line.
    LineEnd,
}

/// A place in a text, by what the piece that begins there depends on.
#[derive(Clone, Copy, Debug, PartialEq, Eq)]
pub struct Place {
    /// Whether a logical line begins here.
    pub fresh: bool,
    /// The number of open brackets.
    pub depth: u32,
    /// The physical line of the indentation that the logical line has, where a tab stands in it.
    pub tab: Option<u32>,
    /// The physical line, from 1.
    pub line: u32,
}

/// A piece, and the place and the text behind it.
#[derive(Drop)]
pub(crate) struct Step<'a> {
    pub(crate) piece: Piece,
    pub(crate) place: Place,
    pub(crate) rest: &'a [char],
}

/// The piece that the text begins with at a place.
pub(crate) fn next_piece(alloc: Global, place: Place, text: &[char]) -> Result<Step<'_>, Stop>
    requires some { 0 < length text.now }
    requires line { place.line + length text.now < 2 ^ 32 }
    requires depth { place.depth ≤ 100 }
    ensures { IsStep place text.now result }
{
    if place.fresh {
        return Ok(indentation(place, text));
    }
    match CharKind::of(text[0]) {
        CharKind::Blank => Ok(blanks(place, text)),
        CharKind::Hash => Ok(comment(place, text)),
        CharKind::LineEnd => line_end(place, text),
        CharKind::Backslash => joined_line(place, text),
        CharKind::Token(starts) => token(alloc, starts, place, text),
    }
}

/// The indentation of a logical line.
fn indentation(place: Place, text: &[char]) -> Step<'_>
    requires line { place.line + length text.now < 2 ^ 32 }
    ensures { step_view result ≡ indentation_step place text.now }
{
    let (blanks, rest) = text.split_at(blanks_len(text));
    let tab = if has_tab(blanks) {
        Some(place.line)
    } else {
        None
    };
    Step {
        piece: Piece::Indentation {
            spaces: spaces_len(text) as u32,
            line: place.line,
        },
        place: Place {
            fresh: false,
            depth: place.depth,
            tab,
            line: place.line,
        },
        rest,
    }
}

/// Whether a tab stands there.
fn has_tab(characters: &[char]) -> bool
    ensures { result ≡ list_any (λ c. c == 9) characters.now }
{
    characters.iter().any(|c| *c == '\t')
}

/// Blanks between tokens.
fn blanks(place: Place, text: &[char]) -> Step<'_>
    requires { 0 < length text.now }
    ensures { step_view result ≡ blanks_step place text.now }
{
    let others = &text[1..];
    Step {
        piece: Piece::Blanks,
        place,
        rest: &others[blanks_len(others)..],
    }
}

/// A comment.
fn comment(place: Place, text: &[char]) -> Step<'_>
    requires { 0 < length text.now }
    ensures { step_view result ≡ comment_step place text.now }
{
    let others = &text[1..];
    Step {
        piece: Piece::Comment,
        place,
        rest: &others[comment_len(others)..],
    }
}

/// A line end.
fn line_end(place: Place, text: &[char]) -> Result<Step<'_>, Stop>
    requires line { place.line + 1 < 2 ^ 32 }
    ensures { GivesStep (line_end_step place text.now) result }
{
    let Some(rest) = after_line_end(text) else {
        return Err(fault(place.line, Code::BadToken));
    };
    let ends = place.depth == 0;
    let next_line = place.line + 1;
    Ok(Step {
        piece: if ends {
            Piece::LineEnd
        } else {
            Piece::JoinedLine
        },
        place: Place {
            fresh: ends,
            depth: place.depth,
            tab: place.tab,
            line: next_line,
        },
        rest,
    })
}

/// A line end behind a backslash.
fn joined_line(place: Place, text: &[char]) -> Result<Step<'_>, Stop>
    requires some { 0 < length text.now }
    requires line { place.line + 1 < 2 ^ 32 }
    ensures { GivesStep (joined_line_step place text.now) result }
{
    let Some(rest) = after_line_end(&text[1..]) else {
        return Err(fault(place.line, Code::BadToken));
    };
    Ok(Step {
        piece: Piece::JoinedLine,
        place: Place {
            fresh: place.fresh,
            depth: place.depth,
            tab: place.tab,
            line: place.line + 1,
        },
        rest,
    })
}

/// A token.
fn token(alloc: Global, starts: TokenKind, place: Place, text: &[char]) -> Result<Step<'_>, Stop>
    requires kind { kind_at text.now ≡ Some (kind.Token starts) }
    requires fresh { place.fresh ≡ false }
    requires line { place.line + length text.now < 2 ^ 32 }
    requires depth { place.depth ≤ 100 }
    ensures { IsStep place text.now result }
{
    let (token, rest) = token_at(alloc, starts, place.line, text)?;
    settled(place, token, text, rest)
}

/// A token that has been read, where one may stand: behind no tab and not too deep.
fn settled<'a>(
    place: Place,
    token: Token,
    text: &[char],
    rest: &'a [char],
) -> Result<Step<'a>, Stop>
    requires within { length rest.now ≤ length text.now }
    requires line { place.line + length text.now < 2 ^ 32 }
    requires depth { place.depth ≤ 100 }
    ensures { GivesStep (settled place token text.now rest.now) result }
{
    if let Some(line) = place.tab {
        return Err(fault(line, Code::TabIndentation));
    }
    let depth = depth_behind(place.depth, &token);
    if depth > GREATEST_DEPTH {
        return Err(fault(place.line, Code::TooDeep));
    }
    let spelling = &text[..text.len() - rest.len()];
    Ok(Step {
        piece: Piece::Token(token),
        place: Place {
            fresh: place.fresh,
            depth,
            tab: place.tab,
            line: place.line + line_feeds(spelling) as u32,
        },
        rest,
    })
}

/// How many brackets are open behind a token.
fn depth_behind(depth: u32, token: &Token) -> u32
    requires { depth ≤ 100 }
    ensures { result ≡ depth_behind depth token.now }
{
    match token {
        Token::Mark(Mark::LeftParen | Mark::LeftBracket | Mark::LeftBrace) => depth + 1,
        Token::Mark(Mark::RightParen | Mark::RightBracket | Mark::RightBrace) => {
            depth.saturating_sub(1)
        }
        _ => depth,
    }
}

/// The refusal with that code on that line.
pub(crate) fn fault(line: u32, code: Code) -> Stop
    ensures { result ≡ stop.Fault (fault line code) }
{
    Stop::Fault(Fault { line, code })
}
