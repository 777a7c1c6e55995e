ghost use Rattle.std.specs.Prelude.{◌≡◌, IfOk, codes};
ghost use Rattle.py_tree.specs.Joined.{expression_of};
ghost use Rattle.py_values.specs.Builtins.{builtins, named_among};
ghost use Rattle.symbols.specs.Words.{among, exception_named};
ghost use Rattle.py_meaning.specs.Expressions.{form_of_static};
ghost use Rattle.bytecode.specs.Scopes.{names_of_scope};
ghost use Rattle.compile_plain.specs.Forms.{form_is};
ghost use Rattle.compile_plain.specs.Names as spec;
ghost use Rattle.compile_plain.specs.Names.{class_place, form_in, function_place, line_in, maybe_variable, place_in, static_in, variable_of};
ghost use Rattle.compile_plain.specs.Scopes.{names_of};

use crate::locals::Locals;
use crate::module_names::ModuleNames;
use bytecode::instr::{Instr, Variable};
use py_tree::expression::Expr;
use py_tree::text::Text;
use py_values::builtin::builtin_named;
use py_values::exception::ExcKind;
use std::alloc::{AllocError, Global};
use symbols::binding::StaticName;
use symbols::special::is_super;
use symbols::words::{exception_of, is_word};

const RECEIVER: [char; 4] = ['s', 'e', 'l', 'f'];

/// The scope in which code is written.
#[derive(Drop)]
pub(crate) struct Scope<'a> {
    pub module: &'a ModuleNames<'a>,
    /// Of a method: the number of its class.
    pub class: Option<u32>,
    /// Of a function.
    pub locals: Option<Locals<'a>>,
}

/// Which call it is.
#[derive(Clone, Copy)]
pub(crate) enum CallForm<'a> {
    Plain,
    /// `super().NAME(..)`.
    Super(&'a Text),
    /// Of the name of a boundary: `int64(E)`, `cbool(E)`, `box(E)`, `cast(E, E)`.
    Static(StaticName),
}

impl<'a> Scope<'a> {
    /// The number of the class in which the code is written.
    pub fn class(&self) -> Option<u32>
        ensures { result ≡ self.now.class }
    {
        self.class
    }

    pub fn local(&self, name: &Text) -> Option<u32>
        ensures { result ≡ place_in (names_of_scope self.now.locals) name.now }
    {
        match &self.locals {
            None => None,
            Some(locals) => locals.place(name),
        }
    }

    /// What reads a name.
    pub fn load(&self, name: &Text) -> Instr
        ensures { result ≡ spec.load (names_of self.now) name.now }
    {
        match self.local(name) {
            Some(place) => Instr::Load(Variable::Local(place)),
            None => match self.module.global(name) {
                Some(place) => Instr::Load(Variable::Global(place)),
                None => load_builtin(name),
            },
        }
    }

    /// What reads the receiver of a method.
    pub fn load_receiver(&self, alloc: Global) -> Result<Instr, AllocError>
        ensures { IfOk result (λ instr. instr ≡ spec.load (names_of self.now) (codes "self")) }
    {
        let name = Text::from_slice(alloc, &RECEIVER)?;
        Ok(self.load(&name))
    }

    /// What a name is bound to.
    pub fn variable(&self, alloc: Global, name: &Text) -> Result<Variable, AllocError>
        ensures { IfOk result (λ variable. variable ≡ variable_of (names_of self.now) name.now) }
    {
        match &self.locals {
            None => match self.module.global(name) {
                Some(place) => Ok(Variable::Global(place)),
                None => Ok(Variable::Named(name.copy(alloc)?)),
            },
            Some(locals) => match locals.place(name) {
                Some(place) => Ok(Variable::Local(place)),
                None => Ok(Variable::Named(name.copy(alloc)?)),
            },
        }
    }

    pub fn maybe_variable(
        &self,
        alloc: Global,
        name: &Option<Text>,
    ) -> Result<Option<Variable>, AllocError>
        ensures { IfOk result (λ variable. variable ≡ maybe_variable (names_of self.now) name.now) }
    {
        match name {
            None => Ok(None),
            Some(name) => Ok(Some(self.variable(alloc, name)?)),
        }
    }

    /// The line of a statement, where it is one of a module's own body.
    pub fn line(&self, line: u32) -> Option<u32>
        ensures { result ≡ line_in self.now.locals line }
    {
        match &self.locals {
            None => Some(line),
            Some(_) => None,
        }
    }

    pub fn static_name(&self, name: &Text) -> Option<StaticName>
        ensures { result ≡ static_in (names_of self.now) name.now }
    {
        if self.has_local(name) {
            None
        } else {
            self.module.static_name(name)
        }
    }

    fn has_local(&self, name: &Text) -> bool
        ensures { result ≡ among name.now (names_of_scope self.now.locals) }
    {
        match &self.locals {
            None => false,
            Some(locals) => locals.has(name),
        }
    }

    /// Which call it is that calls this.
    pub fn form<'e>(&self, callee: &'e Expr) -> CallForm<'e>
        ensures { form_is result ≡ form_in (names_of self.now) (expression_of callee.now) }
    {
        match callee {
            Expr::Attr(e, name) => {
                if is_super(e.get()) {
                    CallForm::Super(name)
                } else {
                    CallForm::Plain
                }
            }
            Expr::Name(name) => converts(self.static_name(name)),
            _ => CallForm::Plain,
        }
    }

    pub fn function(&self, class: Option<u32>, name: &Text) -> Option<u32>
        ensures { result ≡ function_place (names_of self.now) class name.now }
    {
        self.module.function(class, name)
    }

    pub fn class_number(&self, name: &Text) -> Option<u32>
        ensures { result ≡ class_place (names_of self.now) name.now }
    {
        self.module.class(name)
    }
}

fn converts<'e>(name: Option<StaticName>) -> CallForm<'e>
    ensures { form_is result ≡ form_of_static name }
{
    match name {
        Some(StaticName::Int64) => CallForm::Static(StaticName::Int64),
        Some(StaticName::CBool) => CallForm::Static(StaticName::CBool),
        Some(StaticName::Box) => CallForm::Static(StaticName::Box),
        Some(StaticName::Cast) => CallForm::Static(StaticName::Cast),
        _ => CallForm::Plain,
    }
}

/// What reads a name that is no variable.
fn load_builtin(name: &Text) -> Instr
    ensures { result ≡ spec.load_builtin name.now (named_among builtins name.now) (exception_named name.now) }
{
    if let Some(builtin) = builtin_named(name.as_slice()) {
        return Instr::Builtin(builtin);
    }
    if let Some(kind) = exception_of(name) {
        return Instr::Exception(kind);
    }
    if is_word(name, b"__name__") {
        Instr::ModuleName
    } else {
        Instr::Fail(ExcKind::NameError)
    }
}
