use crate::expression::{Expr, Params, Target};
use crate::operator::BinaryOp;
use crate::text::Text;
use lists::Items;
use sqlite_items::Boxed;

/// Statements in the order of the text.
pub type Stmts = Items<Stmt>;

/// The names of an import statement.
pub type Imported = Items<Import>;

/// The branches of an `if`: its own and those of its `elif`s.
pub type Branches = Items<Branch>;

/// The except clauses of a `try`.
pub type Clauses = Items<Clause>;

/// A statement with the physical line, from 1, on which it begins.
#[cycle(stmt)]
#[derive(Drop)]
pub struct Stmt {
    pub line: u32,
    pub kind: StmtKind,
}

/// What a statement is (Python reference: simple statements, compound statements).
#[cycle(stmt)]
#[derive(Drop)]
pub enum StmtKind {
    Pass,
    Break,
    Continue,
    Return(Option<Expr>),
    Raise(Option<Expr>),
    Import(Imported),
    From { module: Text, names: Imported },
    Eval(Expr),
    Assign(Target, Expr),
    /// A target, its annotation and its value.
    Annotate(Target, Boxed<Expr>, Option<Boxed<Expr>>),
    Augment(Target, BinaryOp, Expr),
    If { branches: Branches, orelse: Stmts },
    While(Expr, Stmts),
    For(Target, Boxed<Expr>, Stmts),
    Try(Stmts, Clauses),
    Def(Boxed<Function>),
    Class(Boxed<ClassDef>),
}

/// A name that is imported, and the name that it is bound to where that is another.
#[derive(Drop)]
pub struct Import {
    pub name: Text,
    pub alias: Option<Text>,
}

/// A condition with its block.
#[cycle(stmt)]
#[derive(Drop)]
pub struct Branch {
    /// The physical line, from 1, of its `if` or `elif`.
    pub line: u32,
    pub test: Expr,
    pub body: Stmts,
}

/// An except clause.
#[cycle(stmt)]
#[derive(Drop)]
pub struct Clause {
    /// The exceptions that it takes; without one it takes all.
    pub matches: Option<Expr>,
    pub bind: Option<Text>,
    pub body: Stmts,
}

/// A function definition.
#[cycle(stmt)]
#[derive(Drop)]
pub struct Function {
    pub name: Text,
    pub params: Params,
    /// The annotation of the result.
    pub result: Option<Expr>,
    pub body: Stmts,
}

/// A class definition.
#[cycle(stmt)]
#[derive(Drop)]
pub struct ClassDef {
    pub name: Text,
    pub base: Option<Expr>,
    pub body: Stmts,
}

/// A module.
#[derive(Drop)]
pub struct Module {
    pub body: Stmts,
}
