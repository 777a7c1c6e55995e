ghost use Rattle.std.specs.Prelude.{◌≡◌, IfOk, reverse};
ghost use Rattle.py_blocks.specs.Answers.{Exact, Lawful, Right};
ghost use Rattle.py_blocks.specs.Rows.{row_of, rows_of};
ghost use Rattle.py_blocks.specs.Views.{ReadsRow, state_of};

use crate::builder::Builder;
use crate::form_line::{FormLine, FormLines};
use py_tree::code::Code;
use py_tree::fault::{Fault, Stop};
use py_tree::statement::Module;
use std::alloc::{AllocError, Global};

/// The greatest level of a form. Those of the module itself are at level 0.
const GREATEST_LEVEL: usize = 100;

/// The module that the forms spell (Python reference: compound statements). In time linear in the forms.
///
/// # Errors
///
/// The first form with which they begin no module: `BadIndentation` where its indentation can't stand there, `MisplacedForm` where it
/// can't stand there itself, `TooDeep` where its level is above 100. `MisplacedForm` at the last form where more are wanted.
pub fn build(alloc: Global, forms: FormLines) -> Result<Module, Stop>
    // What is answered is so.
    ensures right { Right (rows_of forms) result }
    // What is so is answered.
    ensures exact { Exact (rows_of forms) result }
    // Each statement stands where it may.
    ensures lawful { Lawful (rows_of forms) result }
{
    match last_first(alloc, forms) {
        Ok(left) => read_all(alloc, left),
        Err(error) => Err(Stop::Memory(error)),
    }
}

/// The module of the forms, the last of which is the first here.
fn read_all(alloc: Global, mut left: FormLines) -> Result<Module, Stop>
    ensures { Right (rows_of (reverse left)) result }
{
    let mut builder = Builder::new(alloc);
    let mut line = 1;
    while let Some(row) = left.pop() {
        line = row.line;
        match read(alloc, builder, row) {
            Ok(next) => builder = next,
            Err(stop) => return Err(stop),
        }
    }
    match builder.finish(alloc) {
        Ok(Some(body)) => Ok(Module { body }),
        Ok(None) => {
            let code = Code::MisplacedForm;
            Err(Stop::Fault(Fault { line, code }))
        }
        Err(error) => Err(Stop::Memory(error)),
    }
}

/// What is open behind a further row.
fn read(alloc: Global, builder: Builder, row: FormLine) -> Result<Builder, Stop>
    ensures { ReadsRow (state_of builder) (row_of row) result }
{
    let line = row.line;
    if !builder.admits(row.indent) {
        let code = Code::BadIndentation;
        return Err(Stop::Fault(Fault { line, code }));
    }
    match builder.step(alloc, row) {
        Ok(Some(next)) => {
            if next.level() > GREATEST_LEVEL {
                let code = Code::TooDeep;
                return Err(Stop::Fault(Fault { line, code }));
            }
            Ok(next)
        }
        Ok(None) => {
            let code = Code::MisplacedForm;
            Err(Stop::Fault(Fault { line, code }))
        }
        Err(error) => Err(Stop::Memory(error)),
    }
}

/// The forms, the last of them first.
fn last_first(alloc: Global, mut forms: FormLines) -> Result<FormLines, AllocError>
    ensures { IfOk result (λ turned. turned ≡ reverse forms) }
{
    let mut turned = FormLines::from_vec(Vec::with_capacity(alloc, forms.len())?);
    while let Some(form) = forms.pop() {
        turned.push(form)?;
    }
    Ok(turned)
}
