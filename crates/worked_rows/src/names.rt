use crate::outer::outer;
use crate::tokens::{put_characters, put_stop};
use anyhow::Result;
use module_load::preparing::parse;
use py_tree::fault::Stop;
use py_tree::text::Text;
use py_values::class_id::ClassId;
use std::alloc::Global;
use std::fmt::Write;
use symbols::binding::StaticName;
use symbols::class::Class;
use symbols::class_list::Classes;
use symbols::resolve::resolve;
use symbols::resolved::{FunctionLocals, Resolved};
use symbols::static_use::StaticUse;

/// What of a module's names a row lists.
#[derive(Clone, Copy)]
pub enum NameList {
    Kind,
    Globals,
    Classes,
    Locals,
    Statics,
    Nothing,
}

/// That of the names of the module that the text spells, or their first fault.
pub fn listed(alloc: Global, list: NameList, text: &str) -> Result<String> {
    let mut out = String::new(alloc);
    match names(alloc, text) {
        Ok(names) => put_list(alloc, list, &names, &mut out)?,
        Err(stop) => put_stop(&mut out, stop)?,
    }
    Ok(out)
}

fn names(alloc: Global, text: &str) -> Result<Resolved, Stop> {
    let tree = parse(alloc, text.as_bytes())?;
    let outer = outer(alloc)?;
    resolve(alloc, &tree, &outer)
}

fn put_list(alloc: Global, list: NameList, names: &Resolved, out: &mut String) -> Result<()> {
    match list {
        NameList::Kind => Ok(write!(out, "{:?}", names.kind)?),
        NameList::Globals => put_names(names.globals.as_slice(), out),
        NameList::Classes => put_classes(alloc, &names.classes, out),
        NameList::Locals => put_locals(names.functions.as_slice(), out),
        NameList::Statics => put_uses(names.statics.as_slice(), out),
        NameList::Nothing => Ok(()),
    }
}

/// Puts the names, each behind a space.
fn put_names(names: &[Text], out: &mut String) -> Result<()> {
    for name in names {
        out.push(' ')?;
        put_characters(out, name.as_slice())?;
    }
    Ok(())
}

fn put_id(id: ClassId, out: &mut String) -> Result<()> {
    match id {
        ClassId::User { home, number } => write!(out, "{home}.{number}")?,
        ClassId::Exc(kind) => out.push_str(kind.name())?,
    }
    Ok(())
}

fn put_classes(alloc: Global, classes: &Classes, out: &mut String) -> Result<()> {
    for number in 0..classes.len() {
        put_class(&classes.class(alloc, number)?, out)?;
    }
    Ok(())
}

/// Puts its line and number, its base, its slots with those of its bases, its methods with those of its bases, and its own methods.
fn put_class(class: &Class, out: &mut String) -> Result<()> {
    put_characters(out, class.name.as_slice())?;
    write!(out, " on {} is ", class.line)?;
    put_id(class.kind.id, out)?;
    if let Some(base) = class.base {
        out.push_str(" below ")?;
        put_id(base, out)?;
    }
    put_members(class, out)
}

fn put_members(class: &Class, out: &mut String) -> Result<()> {
    out.push_str(" slots")?;
    put_names(class.kind.slots.as_slice(), out)?;
    out.push_str(" methods")?;
    put_names(class.kind.methods.as_slice(), out)?;
    out.push_str(" own")?;
    put_names(class.methods.as_slice(), out)?;
    Ok(out.push('\n')?)
}

/// Puts the line of each function with its locals.
fn put_locals(functions: &[FunctionLocals], out: &mut String) -> Result<()> {
    for function in functions {
        write!(out, "{}", function.line)?;
        put_names(function.locals.as_slice(), out)?;
        out.push('\n')?;
    }
    Ok(())
}

/// Puts the line of each use with what is used.
fn put_uses(uses: &[StaticUse], out: &mut String) -> Result<()> {
    for used in uses {
        writeln!(out, "{} {}", used.line, static_name(used.name))?;
    }
    Ok(())
}

fn static_name(name: StaticName) -> &'static str {
    match name {
        StaticName::Optional => "Optional",
        StaticName::Any => "Any",
        StaticName::Int64 => "int64",
        StaticName::CBool => "cbool",
        StaticName::Box => "box",
        StaticName::Cast => "cast",
    }
}
