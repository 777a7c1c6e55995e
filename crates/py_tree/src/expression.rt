use crate::operator::{BinaryOp, CompareOp, Const, UnaryOp};
use crate::text::Text;
use lists::Items;
use sqlite_items::Boxed;

/// Expressions in the order of the text.
pub type Exprs = Items<Expr>;

/// The pairs of a dictionary display.
pub type Pairs = Items<Pair>;

/// The keyword arguments of a call.
pub type Keywords = Items<Keyword>;

/// Names in the order of the text.
pub type Texts = Items<Text>;

/// The parameters of a function.
pub type Params = Items<Param>;

/// An expression (Python reference: expressions).
#[cycle(expr)]
#[derive(Drop)]
pub enum Expr {
    /// The constant `None`.
    Nil,
    True,
    False,
    Int(u128),
    Str(Text),
    Name(Text),
    Tuple(Exprs),
    List(Exprs),
    Dict(Pairs),
    Unary(UnaryOp, Boxed<Expr>),
    Binary(BinaryOp, Boxed<Expr>, Boxed<Expr>),
    Compare(CompareOp, Boxed<Expr>, Boxed<Expr>),
    /// `left is right`, or `left is not right` where it is negated.
    Is {
        negated: bool,
        left: Boxed<Expr>,
        right: Const,
    },
    Not(Boxed<Expr>),
    And(Boxed<Expr>, Boxed<Expr>),
    Or(Boxed<Expr>, Boxed<Expr>),
    /// `yes if test else no`.
    Cond {
        test: Boxed<Expr>,
        yes: Boxed<Expr>,
        no: Boxed<Expr>,
    },
    Attr(Boxed<Expr>, Text),
    /// The first subscripted by the second.
    Index(Boxed<Expr>, Boxed<Expr>),
    Call(Boxed<Call>),
}

/// A call with its arguments.
#[cycle(expr)]
#[derive(Drop)]
pub struct Call {
    pub callee: Expr,
    pub args: Exprs,
    pub keys: Keywords,
}

/// A key of a dictionary display with its value.
#[cycle(expr)]
#[derive(Drop)]
pub struct Pair {
    pub key: Expr,
    pub value: Expr,
}

/// A keyword argument.
#[cycle(expr)]
#[derive(Drop)]
pub struct Keyword {
    pub name: Text,
    pub value: Expr,
}

/// A parameter of a function.
#[derive(Drop)]
pub struct Param {
    pub name: Text,
    /// The annotation.
    pub kind: Option<Expr>,
    pub default: Option<Expr>,
}

/// What an assignment or a `for` binds (Python reference: assignment statements).
#[derive(Drop)]
pub enum Target {
    Name(Text),
    Attr(Boxed<Expr>, Text),
    Index(Boxed<Expr>, Boxed<Expr>),
    /// The names of an unpacking.
    Names(Texts),
}
