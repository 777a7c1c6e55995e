ghost use Rattle.std.specs.Prelude.{◌≡◌, map};
ghost use Rattle.py_expr.specs.Forms.{head_of};
ghost use Rattle.py_tree.specs.Joined.{kind_of, param_of};
ghost use Rattle.py_tree.specs.Lawful as lawful;
ghost use Rattle.py_blocks.specs.Blocks as spec;
ghost use Rattle.py_blocks.specs.Machine as machine;
ghost use Rattle.py_blocks.specs.Views.{context_of, place_of};

use py_expr::form::Head;
use py_tree::expression::{Expr, Param, Target};
use py_tree::statement::StmtKind;

/// What is around a statement in its own function, or in the module where it stands in none.
#[derive(Clone, Copy)]
pub(crate) struct Place {
    pub in_function: bool,
    pub in_loop: bool,
    pub in_clause: bool,
}

/// What a block is the block of.
#[derive(Clone, Copy)]
pub(crate) enum Context {
    /// A module, a function, or a part of one.
    Code(Place),
    /// A class, above its first statement.
    ClassFront,
    /// A class, below it.
    ClassRest,
}

impl Context {
    pub fn module_level() -> Context
        ensures { context_of result ≡ spec.Code lawful.module_level }
    {
        Context::Code(Place {
            in_function: false,
            in_loop: false,
            in_clause: false,
        })
    }

    pub fn function_level() -> Context
        ensures { context_of result ≡ spec.Code lawful.function_level }
    {
        Context::Code(Place {
            in_function: true,
            in_loop: false,
            in_clause: false,
        })
    }

    /// The context behind a statement.
    pub fn behind(self) -> Context
        ensures { context_of result ≡ spec.behind (context_of self) }
    {
        match self {
            Context::Code(place) => Context::Code(place),
            Context::ClassFront | Context::ClassRest => Context::ClassRest,
        }
    }

    /// The context in a loop.
    pub fn looped(self) -> Context
        ensures { context_of result ≡ machine.looped (context_of self) }
    {
        match self {
            Context::Code(place) => Context::Code(Place {
                in_loop: true,
                ..place
            }),
            other => other,
        }
    }

    /// The context in an except clause.
    pub fn claused(self) -> Context
        ensures { context_of result ≡ machine.claused (context_of self) }
    {
        match self {
            Context::Code(place) => Context::Code(Place {
                in_clause: true,
                ..place
            }),
            other => other,
        }
    }

    /// Whether a simple statement may stand here.
    pub fn takes_simple(self, kind: &StmtKind) -> bool
        ensures { result ≡ spec.simple_stands (context_of self) (kind_of kind.now) }
    {
        match self {
            Context::Code(place) => place.takes_simple(kind),
            Context::ClassFront => is_docstring(kind) || is_member(kind),
            Context::ClassRest => is_member(kind),
        }
    }

    /// Whether a statement with that head may begin here.
    pub fn takes_head(self, head: &Head) -> bool
        ensures { result ≡ machine.head_stands (context_of self) (head_of head.now) }
    {
        match head {
            Head::Def { params, .. } => self.takes_def(params.as_slice()),
            Head::Class { .. } => match self {
                Context::Code(place) => place.may_define(),
                Context::ClassFront | Context::ClassRest => false,
            },
            _ => matches!(self, Context::Code(_)),
        }
    }

    fn takes_def(self, params: &[Param]) -> bool
        ensures { result ≡ spec.def_stands (context_of self) (map param_of params.now) }
    {
        match self {
            Context::Code(place) => place.may_define(),
            Context::ClassFront | Context::ClassRest => takes_self(params),
        }
    }
}

impl Place {
    /// Whether a def or a class may stand here.
    fn may_define(self) -> bool
        ensures { result ≡ lawful.may_define (place_of self) }
    {
        !self.in_function && !self.in_loop
    }

    fn takes_simple(self, kind: &StmtKind) -> bool
        ensures { result ≡ spec.simple_stands (spec.Code (place_of self)) (kind_of kind.now) }
    {
        match kind {
            StmtKind::Break | StmtKind::Continue => self.in_loop,
            StmtKind::Return(_) => self.in_function,
            StmtKind::Raise(None) => self.in_clause,
            StmtKind::If { .. }
            | StmtKind::While(..)
            | StmtKind::For(..)
            | StmtKind::Try(..)
            | StmtKind::Def(_)
            | StmtKind::Class(_) => false,
            _ => true,
        }
    }
}

fn is_docstring(kind: &StmtKind) -> bool
    ensures { result ≡ spec.is_docstring (kind_of kind.now) }
{
    matches!(kind, StmtKind::Eval(Expr::Str(_)))
}

/// Whether a simple statement may stand in a class, below the docstring.
fn is_member(kind: &StmtKind) -> bool
    ensures { result ≡ spec.simple_stands spec.ClassRest (kind_of kind.now) }
{
    matches!(
        kind,
        StmtKind::Pass | StmtKind::Annotate(Target::Name(_), _, None)
    )
}

/// Whether the first parameter is `self`, without annotation and default.
fn takes_self(params: &[Param]) -> bool
    ensures { result ≡ lawful.takes_self (map param_of params.now) }
{
    match params {
        [first, ..] => {
            first.name.as_slice() == ['s', 'e', 'l', 'f'].as_slice()
                && first.kind.is_none()
                && first.default.is_none()
        }
        [] => false,
    }
}
