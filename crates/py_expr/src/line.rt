ghost use Rattle.std.specs.Prelude.{◌≡◌, IfOk, Some, None, option_map};
ghost use Rattle.py_tree.specs.declared.fault.Stop.TheVariants as stop;
ghost use Rattle.py_expr.specs.Depth.{head_nesting};
ghost use Rattle.py_expr.specs.Forms.{head_of};
ghost use Rattle.py_phrases.specs.Grammar.{Tokens};
ghost use Rattle.py_expr.specs.LineEnds.{Anything};
ghost use Rattle.py_expr.specs.Lines.{HeadAt};
ghost use Rattle.py_expr.specs.LineAnswers.{AtMostOneForm, IsAnswered, IsSo};
ghost use Rattle.py_expr.specs.Literals.{FormsFit};
ghost use Rattle.py_expr.specs.Readings.{IsFound, both_built, built_on};
ghost use Rattle.py_expr.specs.Statements.{FormAt, HasNoHead, StatementAt};
ghost use Rattle.py_expr.specs.declared.form.Form.TheVariants as form;

use crate::form::{Form, Head};
use crate::found::{Found, both, boxed};
use crate::head::head;
use crate::simple::statement;
use crate::whole::Whole;
use py_lexer::token::{LogicalLine, Token};
use py_phrases::phrase::Built;
use py_tree::code::Code;
use py_tree::fault::{Fault, Stop};
use py_tree::statement::StmtKind;
use sqlite_items::Boxed;
use std::alloc::Global;

/// The one form that the tokens of the line spell.
///
/// # Errors
///
/// E05 where they spell none, and E08 where an expression of the form is nested past 200 levels; both at the line's number.
pub fn line_form(alloc: Global, line: &LogicalLine) -> Result<Form, Stop>
    ensures so { IsSo line.now.tokens line.now.line result }
    ensures answered { IsAnswered line.now.tokens line.now.line result }
{
    let Some(built) = built_form(alloc, line)? else {
        return Err(refused(line, Code::NoForm));
    };
    match built {
        Built::Shallow(form) => Ok(form),
        Built::TooDeep => Err(refused(line, Code::TooDeep)),
    }
}

/// The tokens of a line spell at most one form.
pub fn one_form()
    ensures { AtMostOneForm }
{}

/// No literal of a form is above the greatest `int` where no integer among its tokens is.
pub fn forms_fit()
    ensures { FormsFit }
{}

fn refused(line: &LogicalLine, code: Code) -> Stop
    ensures { result ≡ stop.Fault (record { line = line.now.line; code = code }) }
{
    Stop::Fault(Fault {
        line: line.line,
        code,
    })
}

fn built_form(alloc: Global, line: &LogicalLine) -> Whole<Form>
    ensures { IfOk result (λ found. FormAt line.now.tokens found) }
{
    form(alloc, line.tokens.as_slice())
}

/// `head [simple] | simple`
fn form(alloc: Global, tokens: &[Token]) -> Whole<Form>
    ensures { IfOk result (λ found. FormAt tokens.now found) }
{
    match head(alloc, tokens)? {
        Some(head) => headed(alloc, head),
        None => unheaded(alloc, tokens),
    }
}

/// `head [simple]`
fn headed(alloc: Global, head: Found<'_, Head>) -> Whole<Form>
    ensures { IfOk result (λ found. (s : Tokens) → IsFound HeadAt Anything head_of head_nesting s head.entry.built head.entry.rest.now → FormAt s found) }
{
    let Found { built, rest } = head;
    let head = boxed(alloc, built)?;
    behind_head(alloc, head, rest)
}

/// `[simple]`, behind the head.
fn behind_head(alloc: Global, head: Built<Boxed<Head>>, tokens: &[Token]) -> Whole<Form>
    ensures { IfOk result (λ found. (s : Tokens) → IsFound HeadAt Anything head_of head_nesting s head tokens.now → FormAt s found) }
{
    if tokens.is_empty() {
        return Ok(Some(header(head)));
    }
    let kind = boxed_statement(alloc, tokens)?;
    Ok(header_before(head, kind))
}

/// `simple`, in a box.
fn boxed_statement(alloc: Global, tokens: &[Token]) -> Whole<Boxed<StmtKind>>
    ensures { IfOk result (λ found. StatementAt tokens.now found) }
{
    match statement(alloc, tokens)? {
        Some(kind) => Ok(Some(boxed(alloc, kind)?)),
        None => Ok(None),
    }
}

/// `simple`
fn unheaded(alloc: Global, tokens: &[Token]) -> Whole<Form>
    requires { HasNoHead tokens.now }
    ensures { IfOk result (λ found. FormAt tokens.now found) }
{
    match statement(alloc, tokens)? {
        Some(kind) => Ok(Some(simple(kind))),
        None => Ok(None),
    }
}

fn header(head: Built<Boxed<Head>>) -> Built<Form>
    ensures { result ≡ built_on (λ h. form.Header h None) head }
{
    match head {
        Built::Shallow(head) => Built::Shallow(Form::Header(head, None)),
        Built::TooDeep => Built::TooDeep,
    }
}

/// The head with the statement behind it, if one stands there.
fn header_before(
    head: Built<Boxed<Head>>,
    kind: Option<Built<Boxed<StmtKind>>>,
) -> Option<Built<Form>>
    ensures { result ≡ option_map (λ k. built_on (λ p. form.Header p.0 (Some p.1)) (both_built head k)) kind }
{
    match kind {
        Some(kind) => Some(header_of(both(head, kind))),
        None => None,
    }
}

fn header_of(parts: Built<(Boxed<Head>, Boxed<StmtKind>)>) -> Built<Form>
    ensures { result ≡ built_on (λ p. form.Header p.0 (Some p.1)) parts }
{
    match parts {
        Built::Shallow((head, kind)) => Built::Shallow(Form::Header(head, Some(kind))),
        Built::TooDeep => Built::TooDeep,
    }
}

fn simple(kind: Built<StmtKind>) -> Built<Form>
    ensures { result ≡ built_on form.Simple kind }
{
    match kind {
        Built::Shallow(kind) => Built::Shallow(Form::Simple(kind)),
        Built::TooDeep => Built::TooDeep,
    }
}
