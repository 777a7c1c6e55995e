use crate::shapes::shape;
use crate::tokens::{put_fault, put_stop};
use anyhow::Result;
use module_load::preparing::{parse, prepare};
use module_load::source::SourceState;
use py_expr::line::line_form;
use py_lexer::lex::lex;
use py_lexer::marker::marker_line;
use py_lexer::token::LogicalLine;
use py_tree::fault::Stop;
use sqlite_items::Boxed;
use std::alloc::Global;
use std::fmt::Write;

/// The greatest size of a text, in bytes.
const GREATEST_SIZE: usize = 1_048_576;

/// The first marker line of a text, or `none`.
pub fn marker(alloc: Global, text: &str) -> Result<String> {
    let bytes = text.as_bytes();
    let mut out = String::new(alloc);
    if bytes.len() > GREATEST_SIZE {
        return Ok(out);
    }
    match marker_line(bytes) {
        Some(line) => write!(out, "{line}")?,
        None => out.push_str("none")?,
    }
    Ok(out)
}

/// `taken` where the one logical line of the text spells a form, and else its fault.
pub fn formed(alloc: Global, text: &str) -> Result<String> {
    let mut out = String::new(alloc);
    match lex(alloc, text.as_bytes()) {
        Ok(lines) => put_form(alloc, lines.as_slice(), &mut out)?,
        Err(stop) => put_stop(&mut out, stop)?,
    }
    Ok(out)
}

fn put_form(alloc: Global, lines: &[LogicalLine], out: &mut String) -> Result<()> {
    match lines {
        [line] => match spells_form(alloc, line) {
            Ok(()) => out.push_str("taken")?,
            Err(stop) => put_stop(out, stop)?,
        },
        lines => write!(out, "{} lines", lines.len())?,
    }
    Ok(())
}

/// Nothing where the line spells a form, and else its fault.
fn spells_form(alloc: Global, line: &LogicalLine) -> Result<(), Stop> {
    let _form = Boxed::new(alloc, line_form(alloc, line)?)?;
    Ok(())
}

/// The statements of the module that the text spells, or its first fault.
pub fn spelled_module(alloc: Global, text: &str) -> Result<String> {
    match parse(alloc, text.as_bytes()) {
        Ok(module) => shape(alloc, &module),
        Err(stop) => {
            let mut out = String::new(alloc);
            put_stop(&mut out, stop)?;
            Ok(out)
        }
    }
}

/// What the file of a module is that holds the text: `plain`, `a module`, or its first fault.
pub fn file(alloc: Global, text: &str) -> Result<String> {
    let source = prepare(alloc, "a", text.as_bytes())?;
    let mut out = String::new(alloc);
    match &source.state {
        SourceState::Plain => out.push_str("plain")?,
        SourceState::Faulty(fault) => put_fault(&mut out, *fault)?,
        SourceState::Tree(_) => out.push_str("a module")?,
    }
    Ok(out)
}
