use crate::atoms::{applied, quoted, read};
use crate::cells::spelled;
use crate::modules::{file, formed, marker, spelled_module};
use crate::names::{NameList, listed};
use crate::tokens::lexed;
use anyhow::Result;
use std::alloc::Global;
use std::fs;
use std::io::Print;
use std::rt::Files;

/// What the rows of a table are about.
#[derive(Clone, Copy)]
pub enum Subject {
    /// The tokens of a text's logical lines.
    Tokens,
    /// The first marker line of a text.
    Marker,
    /// The form of a line.
    Form,
    /// The statements of a module.
    Module,
    /// What a module's file is.
    File,
    /// What the names of a module are.
    Names(NameList),
    /// The `repr` of a text.
    Repr,
    /// The `int` that a text spells.
    IntText,
    /// An operator on two ints, and on two `int64`s.
    Operator,
}

pub const TABLES: [(&str, Subject); 14] = [
    ("tokens.txt", Subject::Tokens),
    ("markers.txt", Subject::Marker),
    ("lines.txt", Subject::Form),
    ("blocks.txt", Subject::Module),
    ("files.txt", Subject::File),
    ("kinds.txt", Subject::Names(NameList::Kind)),
    ("globals.txt", Subject::Names(NameList::Globals)),
    ("classes.txt", Subject::Names(NameList::Classes)),
    ("locals.txt", Subject::Names(NameList::Locals)),
    ("statics.txt", Subject::Names(NameList::Statics)),
    ("faults.txt", Subject::Names(NameList::Nothing)),
    ("reprs.txt", Subject::Repr),
    ("int_texts.txt", Subject::IntText),
    ("operators.txt", Subject::Operator),
];

/// Runs the rows of a table. A row is a text and what is made of it, with a tab between them; a line without a tab is a heading.
pub fn check(rt: &(impl Files + Print + AllocGlobal), name: &str, subject: Subject) -> Result<()> {
    let table = fs::read_to_string(rt, name)?;
    let mut rows: u64 = 0;
    for line in table.lines() {
        if let Some((text, want)) = line.split_once('\t') {
            check_row(rt, subject, text, want)?;
            rows = rows.saturating_add(1);
        }
    }
    println!(rt; "{name}: {rows} rows")?;
    Ok(())
}

fn check_row(
    rt: &(impl Print + AllocGlobal),
    subject: Subject,
    text: &str,
    want: &str,
) -> Result<()> {
    let alloc = rt.alloc();
    let answer = answer(alloc, subject, spelled(alloc, text)?.as_str())?;
    if answer.as_str() != spelled(alloc, want)?.as_str() {
        println!(rt; "{text} gives {answer} and not {want}")?;
    }
    Ok(())
}

fn answer(alloc: Global, subject: Subject, text: &str) -> Result<String> {
    match subject {
        Subject::Tokens => lexed(alloc, text),
        Subject::Marker => marker(alloc, text),
        Subject::Form => formed(alloc, text),
        Subject::Module => spelled_module(alloc, text),
        Subject::File => file(alloc, text),
        Subject::Names(list) => listed(alloc, list, text),
        Subject::Repr => quoted(alloc, text),
        Subject::IntText => read(alloc, text),
        Subject::Operator => applied(alloc, text),
    }
}
