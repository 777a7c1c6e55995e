ghost use Rattle.std.specs.Prelude.{◌≡◌, ◌≤◌, ◌<◌, ◌+◌, ◌^◌, ◌++◌, ◌∷◌, [], List, OnOk, IfOk, chars, length};
ghost use Rattle.py_lexer.specs.declared.piece.Piece.{Piece};
ghost use Rattle.py_lexer.specs.Characters.{line_feeds};
ghost use Rattle.py_lexer.specs.Lexing.{IsAnswered, IsSo, OneReading, SameKeywords, line_of, lines_of, without_mark};
ghost use Rattle.py_lexer.specs.Literals.{LexedFit};
ghost use Rattle.py_lexer.specs.Views.{IsDecoded, IsRead, grouped};

use crate::piece::{Piece, Place, fault, next_piece};
use crate::token::{LogicalLine, LogicalLines};
use lists::Items;
use py_tree::code::Code;
use py_tree::fault::Stop;
use std::alloc::{AllocError, Global};
use std::mem;

/// The greatest size of a text, in bytes.
const GREATEST_SIZE: usize = 1_048_576;

/// The logical lines of a text (Python reference: lexical analysis), or why it has none: it is too large, it isn't
/// UTF-8, or at its first place where no piece stands. Takes time in proportion to the text.
pub fn lex(alloc: Global, text: &[u8]) -> Result<LogicalLines, Stop>
    // What is answered is so.
    ensures so { IsSo text.now result }
    // What is so is answered, unless memory runs out.
    ensures answered { IsAnswered text.now result }
{
    if text.len() > GREATEST_SIZE {
        return Err(fault(1, Code::FileTooLarge));
    }
    let characters = decode(alloc, text)?;
    read(alloc, without_mark(&characters))
}

/// A text has one reading.
pub fn one_reading()
    ensures { OneReading }
{}

/// No integer among the tokens that bytes lex to is above the greatest `int`.
pub fn lexed_fit()
    ensures { LexedFit }
{}

/// A name is a keyword, as far as modules' names go, exactly where its token is one.
pub fn same_keywords()
    ensures { SameKeywords }
{}

/// The characters of a text, or the fault of its first byte that isn't UTF-8.
fn decode(alloc: Global, text: &[u8]) -> Result<Vec<char>, Stop>
    requires { length text.now ≤ 1048576 }
    ensures { IsDecoded text.now result }
{
    match str::from_utf8(text) {
        Ok(text) => match characters_of(alloc, text) {
            Ok(characters) => Ok(characters),
            Err(error) => Err(Stop::Memory(error)),
        },
        Err(error) => {
            let line = 1 + byte_line_feeds(&text[..error.valid_up_to()]) as u32;
            Err(fault(line, Code::BadEncoding))
        }
    }
}

/// The characters of a string.
#[tactic(auto, using(std::proofs::lemmas::Str::chars_from_encodes))]
fn characters_of(alloc: Global, text: &str) -> Result<Vec<char>, AllocError>
    ensures { IfOk result (λ characters. characters.items ≡ chars text.now) }
{
    Ok(text.chars().collect(alloc)?)
}

/// How many line feeds there are.
#[tactic(auto, using(crate::proofs::Runs::counted))]
fn byte_line_feeds(bytes: &[u8]) -> usize
    ensures count { result ≡ line_feeds bytes.now }
    ensures within { result ≤ length bytes.now }
{
    bytes.iter().filter(|byte| **byte == b'\n').count()
}

/// The text without U+FEFF at its start.
fn without_mark(text: &[char]) -> &[char]
    ensures { result.now ≡ without_mark text.now }
{
    match text {
        ['\u{feff}', rest @ ..] => rest,
        _ => text,
    }
}

/// The logical lines of a text by its pieces.
fn read(alloc: Global, text: &[char]) -> Result<LogicalLines, Stop>
    requires { length text.now + 2 < 2 ^ 32 }
    ensures { IsRead text.now result }
{
    let mut reader = LineReader::new(alloc);
    let mut place = Place {
        fresh: true,
        depth: 0,
        tab: None,
        line: 1,
    };
    let mut rest = text;
    while !rest.is_empty() {
        let step = next_piece(alloc, place, rest)?;
        place = step.place;
        rest = step.rest;
        if let Err(error) = reader.put(alloc, step.piece) {
            return Err(Stop::Memory(error));
        }
    }
    match reader.finish() {
        Ok(lines) => Ok(lines),
        Err(error) => Err(Stop::Memory(error)),
    }
}

/// Groups pieces into logical lines.
#[derive(Drop)]
struct LineReader {
    /// The lines that have ended.
    ended: LogicalLines,
    /// The line that hasn't.
    line: LogicalLine,
}

impl LineReader {
    fn new(alloc: Global) -> LineReader
        ensures ended { result.ended ≡ [] }
        ensures line { result.line.tokens ≡ [] }
    {
        LineReader {
            ended: Items::new(alloc),
            line: LogicalLine {
                indent: 0,
                line: 1,
                tokens: Items::new(alloc),
            },
        }
    }

    /// Puts in the next piece.
    fn put(&mut self, alloc: Global, piece: Piece) -> Result<(), AllocError>
        ensures { OnOk result ((ks : List Piece) → grouped self.new ks ≡ grouped self.old (piece ∷ ks)) }
    {
        match piece {
            Piece::Indentation { spaces, line } => self.begin(alloc, spaces, line),
            Piece::Token(token) => self.line.tokens.push(token),
            _ => Ok(()),
        }
    }

    /// Begins a line.
    fn begin(&mut self, alloc: Global, indent: u32, line: u32) -> Result<(), AllocError>
        ensures ended { OnOk result (self.new.ended ≡ self.old.ended ++ line_of self.old.line.indent self.old.line.line self.old.line.tokens) }
        ensures line { OnOk result (self.new.line ≡ record { indent = indent; line = line; tokens = [] }) }
    {
        let next = LogicalLine {
            indent,
            line,
            tokens: Items::new(alloc),
        };
        push_line(&mut self.ended, mem::replace(&mut self.line, next))
    }

    /// The lines, where no piece is left.
    fn finish(self) -> Result<LogicalLines, AllocError>
        ensures { IfOk result (λ lines. lines ≡ self.ended ++ line_of self.line.indent self.line.line self.line.tokens) }
    {
        let LineReader { mut ended, line } = self;
        push_line(&mut ended, line)?;
        Ok(ended)
    }
}

/// Appends a line, where it has a token.
fn push_line(lines: &mut LogicalLines, line: LogicalLine) -> Result<(), AllocError>
    ensures { OnOk result (lines.new ≡ lines.old ++ line_of line.indent line.line line.tokens) }
{
    if line.tokens.is_empty() {
        return Ok(());
    }
    lines.push(line)
}
