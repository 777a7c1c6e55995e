ghost use Rattle.std.specs.Prelude.{◌≡◌, IfOk, chars, reverse, true};
ghost use Rattle.py_tree.specs.Joined.{module_of};
ghost use Rattle.py_tree.specs.Lawful.{lawful};
ghost use Rattle.py_tree.specs.declared.fault.Stop.TheVariants as stop;
ghost use Rattle.module_load.specs.Preparing.{Prepares, fault};
ghost use Rattle.module_load.specs.Sources.{State, lawful_state, state_of};
ghost use Rattle.module_load.specs.Parsing.{IsParsed, OnlyParse};
ghost use Rattle.module_load.specs.Views.{IsFormed, IsLineFormed, IsRead};

use crate::source::{Source, SourceState};
use crate::top_part::is_marked;
use py_blocks::building::build;
use py_blocks::form_line::{FormLine, FormLines};
use py_expr::line::line_form;
use py_lexer::lex::lex;
use py_lexer::marker::marker_line;
use py_lexer::token::{LogicalLine, LogicalLines};
use py_tree::code::Code;
use py_tree::fault::{Fault, Stop};
use py_tree::statement::Module;
use py_tree::text::Text;
use sqlite_items::Boxed;
use std::alloc::{AllocError, Global};

/// The greatest size of a file, in bytes.
const GREATEST_SIZE: usize = 1_048_576;

/// What the bytes of a module's file are by themselves, under the module's name. In time near linear in the bytes.
pub fn prepare(alloc: Global, name: &str, bytes: &[u8]) -> Result<Source, AllocError>
    ensures name { IfOk result (λ source. source.name ≡ chars name.now) }
    // What is answered is so.
    ensures so { IfOk result (λ source. Prepares bytes.now (state_of source.state)) }
    // What is so is answered.
    ensures exact { IfOk result (λ source. (state : State) → Prepares bytes.now state → state ≡ state_of source.state) }
{
    let name = Text::from_str(alloc, name)?;
    let state = state(alloc, bytes)?;
    Ok(Source { name, state })
}

/// The state of the bytes.
fn state(alloc: Global, bytes: &[u8]) -> Result<SourceState, AllocError>
    ensures so { IfOk result (λ state. Prepares bytes.now (state_of state)) }
    ensures lawful { IfOk result (λ state. lawful_state state ≡ true) }
{
    match read(alloc, bytes) {
        Ok(state) => Ok(state),
        Err(Stop::Fault(fault)) => Ok(SourceState::Faulty(fault)),
        Err(Stop::Memory(error)) => Err(error),
    }
}

/// The state of the bytes, where they are not refused.
fn read(alloc: Global, bytes: &[u8]) -> Result<SourceState, Stop>
    ensures so { IsRead bytes.now result }
    ensures lawful { IfOk result (λ state. lawful_state state ≡ true) }
{
    if bytes.len() > GREATEST_SIZE {
        return Err(refused(1, Code::FileTooLarge));
    }
    let Some(line) = marker_line(bytes) else {
        return Ok(SourceState::Plain);
    };
    let module = parse(alloc, bytes)?;
    if !is_marked(&module) {
        return Err(refused(line, Code::MisplacedMarker));
    }
    Ok(SourceState::Tree(module))
}

fn refused(line: u32, code: Code) -> Stop
    ensures { result ≡ stop.Fault (fault line code) }
{
    Stop::Fault(Fault { line, code })
}

/// The module that the bytes spell, or the first fault of their tokens, lines and blocks. Its tree is lawful.
pub fn parse(alloc: Global, bytes: &[u8]) -> Result<Module, Stop>
    // What is answered is so.
    ensures so { IsParsed bytes.now result }
    // What is so is answered.
    ensures exact { OnlyParse bytes.now result }
    ensures lawful { IfOk result (λ made. lawful (module_of made) ≡ true) }
{
    let lines = lex(alloc, bytes)?;
    let forms = forms_of(alloc, lines)?;
    build(alloc, forms)
}

/// The forms of the lines, or the fault of the first line that has none. Each line goes as soon as it has its form, so that the next one can
/// have its memory.
fn forms_of(alloc: Global, lines: LogicalLines) -> Result<FormLines, Stop>
    ensures { IsFormed lines result }
{
    let mut left = last_first(alloc, lines)?;
    let mut forms = FormLines::from_vec(Vec::with_capacity(alloc, left.len())?);
    while let Some(line) = left.pop() {
        let form = formed(alloc, line)?;
        forms.push(form)?;
    }
    Ok(forms)
}

/// The lines, the last of them first.
fn last_first(alloc: Global, mut lines: LogicalLines) -> Result<LogicalLines, AllocError>
    ensures { IfOk result (λ turned. turned ≡ reverse lines) }
{
    let mut turned = LogicalLines::from_vec(Vec::with_capacity(alloc, lines.len())?);
    while let Some(line) = lines.pop() {
        turned.push(line)?;
    }
    Ok(turned)
}

/// The form of the line, or its fault.
fn formed(alloc: Global, line: LogicalLine) -> Result<FormLine, Stop>
    ensures { IsLineFormed line result }
{
    let form = line_form(alloc, &line)?;
    Ok(FormLine {
        indent: line.indent,
        line: line.line,
        form: Boxed::new(alloc, form)?,
    })
}
