use py_tree::expression::{Expr, Params, Target};
use py_tree::statement::StmtKind;
use py_tree::text::Text;
use sqlite_items::Boxed;

/// What a logical line spells: the head of a block, with the simple statement that follows it on its line, or a simple statement.
#[derive(Drop)]
pub enum Form {
    Header(Boxed<Head>, Option<Boxed<StmtKind>>),
    Simple(StmtKind),
}

/// The head of a block (Python reference: compound statements).
#[derive(Drop)]
pub enum Head {
    If(Expr),
    Elif(Expr),
    Else,
    While(Expr),
    For(Target, Boxed<Expr>),
    Try,
    Except {
        matches: Option<Expr>,
        bind: Option<Text>,
    },
    Def {
        name: Text,
        params: Params,
        result: Option<Expr>,
    },
    Class {
        name: Text,
        base: Option<Expr>,
    },
}
