use crate::tokens::put_characters;
use anyhow::Result;
use atom_ops::arithmetic::{int_op, prim_op};
use atom_ops::read_int::read_int;
use atom_ops::text::repr_text;
use py_tree::operator::BinaryOp;
use py_tree::text::Text;
use py_values::exception::ExcKind;
use std::alloc::Global;
use std::fmt::Write;

/// The `repr` of a text.
pub fn quoted(alloc: Global, text: &str) -> Result<String> {
    let made = repr_text(alloc, Text::from_str(alloc, text)?.as_slice())?;
    let mut out = String::new(alloc);
    put_characters(&mut out, made.as_slice())?;
    Ok(out)
}

/// The `int` that a text spells, or the exception.
pub fn read(alloc: Global, text: &str) -> Result<String> {
    let points = Text::from_str(alloc, text)?;
    let mut out = String::new(alloc);
    put_number(&mut out, read_int(points.as_slice()))?;
    Ok(out)
}

fn put_number(out: &mut String, answer: Result<i64, ExcKind>) -> Result<()> {
    match answer {
        Ok(number) => write!(out, "{number}")?,
        Err(kind) => out.push_str(kind.name())?,
    }
    Ok(())
}

/// What the operator gives that stands between two numbers, for ints and for `int64`s.
pub fn applied(alloc: Global, text: &str) -> Result<String> {
    let mut out = String::new(alloc);
    let words: Vec<&str> = text.split(' ').collect(alloc)?;
    if let [a, operator, b] = words.as_slice() {
        let (a, op, b) = (a.parse::<i64>()?, operator_of(operator), b.parse::<i64>()?);
        put_number(&mut out, int_op(op, a, b))?;
        out.push(' ')?;
        put_number(&mut out, prim_op(op, a, b))?;
    }
    Ok(out)
}

fn operator_of(word: &str) -> BinaryOp {
    match word {
        "+" => BinaryOp::Add,
        "-" => BinaryOp::Sub,
        "*" => BinaryOp::Mul,
        "//" => BinaryOp::FloorDiv,
        _ => BinaryOp::Mod,
    }
}
