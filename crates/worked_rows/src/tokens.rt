use anyhow::Result;
use py_lexer::lex::lex;
use py_lexer::token::{LogicalLine, Token};
use py_tree::fault::{Fault, Stop};
use std::alloc::Global;
use std::fmt::Write;

/// The logical lines of a text, each as `INDENT@LINE` with its tokens, or its first fault.
pub fn lexed(alloc: Global, text: &str) -> Result<String> {
    let mut out = String::new(alloc);
    match lex(alloc, text.as_bytes()) {
        Ok(lines) => put_lines(&mut out, lines.as_slice())?,
        Err(stop) => put_stop(&mut out, stop)?,
    }
    Ok(out)
}

/// Puts the fault.
pub fn put_stop(out: &mut String, stop: Stop) -> Result<()> {
    match stop {
        Stop::Fault(fault) => put_fault(out, fault),
        Stop::Memory(error) => Err(error.into()),
    }
}

/// Puts the code and the line of a fault.
pub fn put_fault(out: &mut String, fault: Fault) -> Result<()> {
    write!(out, "{} on {}", fault.code, fault.line)?;
    Ok(())
}

/// Puts these characters.
pub fn put_characters(out: &mut String, characters: &[char]) -> Result<()> {
    for character in characters {
        out.push(*character)?;
    }
    Ok(())
}

fn put_lines(out: &mut String, lines: &[LogicalLine]) -> Result<()> {
    for line in lines {
        put_line(out, line)?;
    }
    Ok(())
}

fn put_line(out: &mut String, line: &LogicalLine) -> Result<()> {
    if !out.is_empty() {
        write!(out, "; ")?;
    }
    write!(out, "{}@{}", line.indent, line.line)?;
    for token in line.tokens.as_slice() {
        put_token(out, token)?;
    }
    Ok(())
}

fn put_token(out: &mut String, token: &Token) -> Result<()> {
    match token {
        Token::Name(name) => {
            write!(out, " ")?;
            put_characters(out, name.as_slice())?;
        }
        Token::Int(value) => write!(out, " #{value}")?,
        Token::Str(value) => {
            write!(out, " '")?;
            put_characters(out, value.as_slice())?;
            write!(out, "'")?;
        }
        Token::Word(keyword) => write!(out, " <{keyword:?}>")?,
        Token::Mark(mark) => write!(out, " <{mark:?}>")?,
    }
    Ok(())
}
